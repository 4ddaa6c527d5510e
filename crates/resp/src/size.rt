ghost use Rattle.std.specs.Prelude.{◌≡◌};
ghost use Rattle.resp.specs.Reading.{is_minus_one, size as sized, size_or_null};
ghost use Rattle.resp.specs.Told.{Judged, Sizes, Tells};

use crate::fault::{WireFault, WireReason};
use crate::item::Item;
use crate::opening::Size;
use numerals::plain_number;

fn is_minus_one(content: &[u8]) -> bool
    ensures { result ≡ is_minus_one content.now }
{
    matches!(content, b"-1")
}

impl<'a> Item<'a> {
    /// The plain number that is the content of the item's line, at most `most`.
    fn plain(self, content: &[u8], most: u32) -> Result<u32, WireFault>
        ensures { Judged most self.entry.at content.now result }
    {
        // kept: with `?` for the first refusal the two would stand apart, and the three answers say no more
        match plain_number(content) {
            Some(n) if n <= u64::from(most) => Ok(n as u32),
            Some(_) => Err(WireReason::Limit.at(self.at)),
            None => Err(WireReason::Content.at(self.at)),
        }
    }

    /// The length or count that the item tells; -1 may stand for no value.
    pub(crate) fn size_or_null(self, most: u32) -> Result<Size<Option<u32>>, WireFault>
        ensures { Tells Sizes (size_or_null most) self.entry result }
    {
        let line = self.line()?;
        let content = line.held();
        let start = line.after();
        if is_minus_one(content) {
            return Ok(Size { count: None, start });
        }
        let count = self.plain(content, most)?;
        Ok(Size {
            count: Some(count),
            start,
        })
    }

    /// The same where -1 stands for nothing.
    pub(crate) fn size(self, most: u32) -> Result<Size<u32>, WireFault>
        ensures { Tells Sizes (sized most) self.entry result }
    {
        let Size { count, start } = self.size_or_null(most)?;
        let count = count.ok_or(WireReason::Content.at(self.at))?;
        Ok(Size { count, start })
    }
}
