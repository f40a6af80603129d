// The refusals, named once, with the numbers that callers see.
ghost use Rattle.std.specs.Prelude.{◌≡◌};
ghost use Rattle.triple.specs.Refusals.{number_of};

#[derive(Clone, Copy)]
pub enum Refusal {
    Resolution,
    Orientation,
    Position,
    Sum,
    Bounds,
    Pair,
    Node,
    Digit,
    Point,
    Room,
    Code,
    Shape,
    Motif,
    Rule,
    Children,
    Heading,
    Draw,
    Turns,
    Net,
    Split,
    Line,
    Table,
    Passes,
    Spare,
    Order,
    Part,
    Polygon,
    Retired,
    Long,
}

impl Refusal {
    // Stays a match: these are the numbers that C and README.md name.
    pub fn number(self) -> u8
        ensures { result ≡ number_of self }
    {
        match self {
            Refusal::Resolution => 1,
            Refusal::Orientation => 2,
            Refusal::Position => 3,
            Refusal::Sum => 4,
            Refusal::Bounds => 5,
            Refusal::Pair => 6,
            Refusal::Node => 7,
            Refusal::Digit => 8,
            Refusal::Point => 9,
            Refusal::Room => 10,
            Refusal::Code => 11,
            Refusal::Shape => 12,
            Refusal::Motif => 13,
            Refusal::Rule => 14,
            Refusal::Children => 15,
            Refusal::Heading => 16,
            Refusal::Draw => 17,
            Refusal::Turns => 18,
            Refusal::Net => 19,
            Refusal::Split => 20,
            Refusal::Line => 21,
            Refusal::Table => 22,
            Refusal::Passes => 23,
            Refusal::Spare => 24,
            Refusal::Order => 25,
            Refusal::Part => 26,
            Refusal::Polygon => 27,
            Refusal::Retired => 28,
            Refusal::Long => 29,
        }
    }
}
