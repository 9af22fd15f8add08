//! Sealing one planned section.

ghost use Rattle.std.specs.Prelude.{◌≡◌, take};
ghost use Rattle.sections.specs.Images.{block_length};
ghost use Rattle.packing.specs.Keys.{cipher_of};
ghost use Rattle.packing.specs.Plans.{work_of};
ghost use Rattle.packing.specs.Sealing.{means_in};
ghost use Rattle.packing.specs.Steps.{SealedBy, Sealing};

use crate::fault::Fault;
use crate::plan::Planned;
use crate::sealer::Sealer;
use refusals::Refusal;
use sections::kind::CipherKind;
use sections::sealing::seal;
use std::alloc::Global;

/// A sealed section: its entry and its body.
#[derive(Drop)]
pub struct Sealed {
    pub(crate) entry: [u8; 32],
    pub(crate) body: Vec<u8>,
}

/// One byte more than the longest image has.
const TOO_LONG: usize = 16385;

/// The image as it is judged: of one that is too long, as many bytes as are one too many.
fn judged_part(image: &[u8]) -> &[u8]
    ensures { result.now ≡ take 16385 image.now }
{
    &image[..image.len().min(TOO_LONG)]
}

impl Sealer<'_> {
    /// Seals with the cipher of a kind.
    fn seal_with(
        self,
        cipher: CipherKind,
        entry: &mut [u8],
        image: &[u8],
        body: &mut [u8],
    ) -> Result<(), Refusal>
        ensures { SealedBy (cipher_of (means_in self.entry).rows (means_in self.entry).keys cipher) (block_length cipher) (means_in self.entry).rows (means_in self.entry).keys.tag image.now entry.old body.old result entry.new body.new }
    {
        let tag = self.keys.tag(self.table);
        // A match: the two ciphers are two types.
        match cipher {
            CipherKind::Gost => {
                let gost = self.keys.gost(self.table);
                seal(entry, image, body, &gost, tag)
            }
            CipherKind::Kuznyechik => {
                let kuznyechik = self.keys.kuznyechik();
                seal(entry, image, body, &kuznyechik, tag)
            }
        }
    }

    /// Seals a planned section. A refusal has the section's number as its place.
    pub(crate) fn seal_section(
        self,
        heap: Global,
        planned: &Planned,
        place: u32,
    ) -> Result<Sealed, Fault>
        ensures { Sealing (means_in self.entry) place (work_of planned.now) result }
    {
        let image = judged_part(planned.image.as_slice());
        let plan = planned.plan;
        let mut entry = plan.entry(image.len() as u32);
        let mut body = Vec::from_slice(heap, image)?;
        self.seal_with(plan.cipher, &mut entry, image, body.as_mut_slice())
            .map_err(|why| Refusal { place, ..why })?;
        Ok(Sealed { entry, body })
    }
}
