//! Writing the sections into a file.

ghost use Rattle.std.specs.Prelude.{◌≤◌, map, length, vec_items};
ghost use Rattle.packing.specs.Plans.{work_of};
ghost use Rattle.packing.specs.Sealing.{means_in};
ghost use Rattle.packing.specs.Steps.{Filled};

use crate::fault::Fault;
use crate::plan::Planned;
use crate::sealer::Sealer;
use std::alloc::Global;

impl Sealer<'_> {
    /// Seals every section and puts the file together: the header, the entries, the bodies.
    pub(crate) fn fill(self, heap: Global, planned: &[Planned]) -> Result<Vec<u8>, Fault>
        requires { length planned.now ≤ 8 }
        ensures { Filled vec_items (means_in self.entry) (map work_of planned.now) result }
    {
        let mut file = Vec::from_slice(heap, &[1, planned.len() as u8, 0, 0])?;
        let mut bodies = Vec::new(heap);
        for (i, section) in planned.iter().enumerate() {
            let sealed = self.seal_section(heap, section, i as u32 + 1)?;
            file.extend_from_slice(&sealed.entry)?;
            bodies.extend_from_slice(sealed.body.as_slice())?;
        }
        file.extend_from_slice(bodies.as_slice())?;
        Ok(file)
    }
}
