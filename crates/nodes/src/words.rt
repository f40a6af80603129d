// A5's table as numbers of the code: a word for each state. What the words hold is read in `step_of` and `leaf_of`.
ghost use Rattle.std.specs.Prelude.{◌≡◌, ◌%◌, ◌<◌, ◌≤◌};
ghost use Rattle.nodes.specs.Inside.Words.{spread};
ghost use Rattle.nodes.specs.Inside.Descents.{step_at, leaf_at};

use crate::descent::{Drawn, Place};
use turtle::AB;

// Four children, each in 16 bits: state in 5, then offset a and offset b, each (offset + 16) / 4, in 4.
pub(crate) static STEP_WORDS: [u64; 28] = [
    0x50204c006ca0888,
    0xc030c410a4b0889,
    0x10400e4b0c890882,
    0xc102ca04880883,
    0x51106e706cd0888,
    0xc100a260a4c0889,
    0x8500485068a0898,
    0x8d10c840a8b0899,
    0x903050206d60888,
    0x8020c030a570889,
    0x89104c506ca0888,
    0x8900c440a4b0889,
    0xa4a0c580c8f0890,
    0x6cb04d9048e0891,
    0xad60cd80c8e0890,
    0x6570459048f0891,
    0xc900ad708d9088e,
    0x49106560858088f,
    0x2d602bb04950883,
    0xe570e7a0c940882,
    0xe4a10580c930882,
    0x2cb00d904920883,
    0x6d6088804900891,
    0xa5708890c910890,
    0x656085804930883,
    0xad708d90c920882,
    0x4420481068a0898,
    0xcc30c800a8b0899,
];

// Four leaves of 10 bits: sum a and sum b, each (sum + 28) / 4, in 4, then the flavor in 2.
pub(crate) static LEAF_WORDS: [u64; 28] = [
    0x9b23c56c69,
    0xe0bb224d85,
    0xb18c36d696,
    0xca12b0e758,
    0x8f26c56c69,
    0xecb8224d85,
    0xe175556066,
    0x9a69925988,
    0xd7a6c56c69,
    0xa438224d85,
    0x99b5856c69,
    0xe229624d85,
    0x61493a5b88,
    0x1a55bd6266,
    0x62c99ee388,
    0x18d558da66,
    0xee09962f88,
    0x8d95518e66,
    0x4ac39ca358,
    0x30db5b1a96,
    0x6d4c3b1a96,
    0xe52bca358,
    0x56c69d6266,
    0x24d85a5b88,
    0x5546399b58,
    0x2658be2296,
    0x98f5556066,
    0xe2e9925988,
];

// A digit of the curve: one of four.
#[derive(Clone, Copy)]
pub(crate) struct Digit {
    pub value: u64,
    ghost one_of_four: { value < 4 },
}

impl Digit {
    // The last of a number's.
    pub(crate) fn last(n: u64) -> Self
        ensures { result.value ≡ n % 4 }
    {
        Self { value: n % 4 }
    }
}

// The low four bits of w count fours from `least` below 0 up.
fn spread(w: u64, least: u64) -> i64
    requires { least ≤ 28 }
    ensures { result ≡ spread least (w % 16) }
{
    (4 * (w % 16)) as i64 - least as i64
}

// A child's state, and where it starts in its parent's frame.
pub(crate) fn step_of(state: u64, digit: Digit) -> Place
    requires { state < 28 }
    ensures { result ≡ step_at state digit.value }
{
    let w = STEP_WORDS[state as usize] >> (16 * digit.value);
    Place {
        a: spread(w / 32, 16),
        b: spread(w / 512, 16),
        state: w % 32,
    }
}

// A cell of the last level: its corner sum in its state's frame, and its flavor.
pub(crate) fn leaf_of(state: u64, digit: Digit) -> Drawn
    requires { state < 28 }
    ensures { result ≡ leaf_at state digit.value }
{
    let w = LEAF_WORDS[state as usize] >> (10 * digit.value);
    Drawn {
        sum: AB::new(spread(w, 28), spread(w / 16, 28)),
        flavor: (w / 256 % 4) as u8,
    }
}
