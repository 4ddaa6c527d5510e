ghost use Rattle.resp.specs.Limits.{line_most};
ghost use Rattle.resp.specs.Reading.{line};
ghost use Rattle.resp.specs.Told.{Lines, Tells};

use crate::closed::Closed;
use crate::fault::{WireFault, WireReason};
use crate::item::Item;
use crate::limits::LINE_MOST;

impl<'a> Item<'a> {
    /// The item's line, whose content starts after the item's first byte.
    pub(crate) fn line(self) -> Result<Closed<'a>, WireFault>
        ensures { Tells Lines (λ s. line s line_most) self.entry result }
    {
        let from = self.at + 1;
        // kept: `position` would give the first of both ends, and that byte and the limit would have to be asked again
        for (n, byte) in self.bytes[from..].iter().enumerate() {
            match *byte as char {
                '\r' => return match &self.bytes[from + n + 1..] {
                    [] => Err(WireReason::NotWhole.at(self.bytes.len())),
                    [b'\n', ..] => Ok(Closed {
                        bytes: self.bytes,
                        from,
                        end: from + n,
                    }),
                    _ => Err(WireReason::BrokenLine.at(self.at)),
                },
                '\n' => return Err(WireReason::BrokenLine.at(self.at)),
                _ if n == LINE_MOST => return Err(WireReason::LongLine.at(self.at)),
                _ => {}
            }
        }
        Err(WireReason::NotWhole.at(self.bytes.len()))
    }
}
