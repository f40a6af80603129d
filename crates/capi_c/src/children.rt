// Nodes and child steps for callers in C and Rust.
ghost use Rattle.std.specs.Prelude.{◌≡◌, ◌<◌};
ghost use Rattle.triple.specs.Lent.{status_of, after_call, first_of, second_of};
ghost use Rattle.capi.specs.Calls.{node_call, step_call};
ghost use Rattle.capi.specs.Inside.Given.{clipped, frame_clipped};

// The node below a cell: orientation resolution motif flip to `numbers`, and its two positions to
// `places`.
#[unsafe(no_mangle)]
pub extern "C" fn hb_node(
    orientation: u8,
    resolution: u8,
    x: i32,
    y: i32,
    z: i32,
    numbers: &mut [i32],
    places: &mut [f64],
) -> u8
    ensures { (result ≡ status_of (first_of (node_call orientation resolution x y z) places.old) numbers.old) × (numbers.new ≡ after_call (first_of (node_call orientation resolution x y z) places.old) numbers.old) × (places.new ≡ after_call (second_of (node_call orientation resolution x y z) numbers.old) places.old) }
{
    capi::children::hb_node(orientation, resolution, x, y, z, numbers, places)
}

// The child step from a node, at its own resolution and in its own orientation: x y z flavor of the
// child's cell and orientation resolution motif flip of the node below it to `numbers`, and that node's
// two positions to `places`.
#[unsafe(no_mangle)]
pub extern "C" fn hb_child(
    orientation: u8,
    resolution: u8,
    motif: i32,
    flip: i32,
    a: f64,
    b: f64,
    digit: u8,
    numbers: &mut [i32],
    places: &mut [f64],
) -> u8
    ensures { (result ≡ status_of (first_of (step_call orientation resolution motif flip a b digit) places.old) numbers.old) × (numbers.new ≡ after_call (first_of (step_call orientation resolution motif flip a b digit) places.old) numbers.old) × (places.new ≡ after_call (second_of (step_call orientation resolution motif flip a b digit) numbers.old) places.old) }
{
    capi::children::hb_child(
        orientation,
        resolution,
        motif,
        flip,
        a,
        b,
        digit,
        numbers,
        places,
    )
}
