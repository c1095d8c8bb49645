#![tactic(auto)]

ghost use Rattle.std.specs.Prelude.{◌≡◌};
ghost use Rattle.evc_clip.specs.Clip.{number_of};
ghost use Rattle.evc_counts.specs.Counts.{◌plus◌, one_if, counts_of};
ghost use Rattle.evc_counts.specs.Inner.{AtMost};

use evc_clip::{EvcMoved, Moved};

// How often clipping moved a component to each side.
#[derive(Clone, Copy, Default)]
pub struct MovedCounts {
    pub across_low: u64,
    pub across_high: u64,
    pub down_low: u64,
    pub down_high: u64,
}

// By the number: `with_lists` takes the C records, whose numbers may be any, and a `MovedMv` in their place would ask more of callers.
fn one_if(moved: u8, side: Moved) -> u64
    ensures { result ≡ one_if moved (number_of side) }
{
    u64::from(moved == side as u8)
}

impl MovedCounts {
    fn with(self, m: EvcMoved) -> MovedCounts
        requires { AtMost 18446744073709551614 self }
        ensures { result ≡ self plus counts_of m }
    {
        MovedCounts {
            across_low: self.across_low + one_if(m.x, Moved::Low),
            across_high: self.across_high + one_if(m.x, Moved::High),
            down_low: self.down_low + one_if(m.y, Moved::Low),
            down_high: self.down_high + one_if(m.y, Moved::High),
        }
    }

    // Both lists of a block.
    pub fn with_lists(self, moved0: EvcMoved, moved1: EvcMoved) -> MovedCounts
        requires { AtMost 18446744073709551613 self }
        ensures { result ≡ self plus (counts_of moved0 plus counts_of moved1) }
    {
        self.with(moved0).with(moved1)
    }
}
