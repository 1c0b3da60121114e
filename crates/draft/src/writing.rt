ghost use Rattle.std.specs.Prelude.{◌≡◌};
ghost use Rattle.draft.specs.Drafts.{Put};

use crate::draft::Draft;
use fault::{Code, Fault};

impl Draft<'_> {
    /// Puts octets behind those that are written.
    pub fn put(&mut self, octets: &[u8]) -> Result<(), Fault>
        ensures { Put self.old octets.now result self.new }
    {
        let from = self.len;
        if self.out.len() - from < octets.len() {
            return Err(Fault::call(Code::Short, 0));
        }
        let to = from + octets.len();
        self.out[from..to].copy_from_slice(octets);
        self.len = to;
        Ok(())
    }
}
