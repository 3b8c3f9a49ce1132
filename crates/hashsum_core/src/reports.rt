//! Who is told of what a check finds.
use crate::check::Counts;
use crate::hints::Hint;

/// Who is told of what a check finds in its lists.
pub trait Reports {
    /// The line of that number in the list of that name is improper.
    fn improper(&self, list: &[u8], line: u64);

    /// The lines without a tag in the list of that name look so, and did not pass.
    fn hints(&self, _list: &[u8], _hint: Hint) {}

    /// The list of that name ended, and this came of its lines.
    fn ended(&self, list: &[u8], counts: &Counts);
}
