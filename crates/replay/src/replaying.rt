//! The run of a script.

use crate::fault::{Fault, Source};
use crate::frames::{calls_of, cut_frames};
use crate::marks::{BlockMark, PageMark, mark_blocks, mark_pages};
use blocks::BlockCipher;
use description::parts::{Description, TargetKind};
use downloads::arrivals::ArrivalRecord;
use downloads::received::Received;
use gost::cipher::Gost;
use keys::SpreadKeys;
use scripts::order::Script;
use sections::kind::CipherKind;
use sections::listing::Listing;
use sections::section::Section;
use std::alloc::Global;
use targets::Target;
use targets::kinds::{FlashKind, Kind, RamKind};
use targets::paged::Paged;
use traces::call::{Answer, Bench, Call, Phase, Until};
use traces::run::run;

/// What a script is run on.
#[derive(Drop)]
pub struct Setting {
    pub target: Description,
    pub keys: SpreadKeys,
    pub file: Vec<u8>,
    pub listing: Listing,
    pub section: Section,
    pub script: Script,
}

/// What came of a run: an answer for each call, and how the download and the image then stand.
#[derive(Drop)]
pub struct Outcome {
    pub answers: Vec<Answer>,
    pub closed: bool,
    pub blocks: Vec<BlockMark>,
    pub pages: Vec<PageMark>,
}

/// The section's body in the file. Listing has shown that it is there.
fn own_body<'a>(file: &'a [u8], section: &Section) -> &'a [u8] {
    let from = section.offset as usize;
    file.get(from..from + section.length as usize)
        .unwrap_or(&[])
}

/// Makes the calls by `traces::run::run`, with a cipher and on a target.
fn make_calls<'a, C: BlockCipher, T: Target>(
    heap: Global,
    setting: &'a Setting,
    cipher: &'a C,
    target: &mut T,
    sent: &[u8],
    calls: &[Call<'_>],
) -> Result<Outcome, Fault> {
    let section = setting.section;
    let n = section.cipher.block_length();
    let long = section.length as usize;
    let mut answers = vec![in heap; Answer::NotBuilt; calls.len()]?;
    let mut body = vec![in heap; 0u8; long]?;
    let mut page = vec![in heap; 0u8; setting.target.page_length as usize]?;
    let record = ArrivalRecord::new(long.div_ceil(n));
    let mut arrivals = record.map_err(|refusal| Source::Download.refused(refusal))?;
    let received = Received {
        body: body.as_mut_slice(),
        arrivals: &mut arrivals,
    };
    let mut bench = Bench {
        cipher,
        tag: Gost::new(&setting.target.table, &setting.keys.tag),
        target,
        received,
        page: page.as_mut_slice(),
    };
    let progress = run(
        &setting.listing,
        setting.script.section,
        &mut bench,
        calls,
        answers.as_mut_slice(),
        Until::End,
    );
    let progress = progress.map_err(|refusal| Source::Download.refused(refusal))?;
    Ok(Outcome {
        answers,
        closed: matches!(progress.phase, Phase::Closed(_)),
        blocks: mark_blocks(heap, n, sent, body.as_slice(), &arrivals)?,
        pages: mark_pages(heap, &section, cipher, target, sent)?,
    })
}

/// Runs the script with a cipher and on a target.
fn run_on<C: BlockCipher, T: Target>(
    heap: Global,
    setting: &Setting,
    cipher: &C,
    target: &mut T,
) -> Result<Outcome, Fault> {
    let n = setting.section.cipher.block_length();
    let sent = own_body(setting.file.as_slice(), &setting.section);
    let steps = setting.script.steps.as_slice();
    let frames = cut_frames(heap, sent, n, steps)?;
    let calls = calls_of(heap, steps, frames.as_slice())?;
    make_calls(heap, setting, cipher, target, sent, calls.as_slice())
}

/// Runs the script with a cipher, on a target that is first all fill.
fn run_with<C: BlockCipher, K: Kind>(
    heap: Global,
    setting: &Setting,
    cipher: &C,
) -> Result<Outcome, Fault> {
    let t = &setting.target;
    let size = t.page_length as usize * t.page_count as usize;
    let mut memory = vec![in heap; t.fill; size]?;
    let memory = memory.as_mut_slice();
    let made = Paged::<K>::new(memory, t.page_length, t.page_count, t.fill, &t.locked);
    let mut target = made.map_err(|refusal| Source::Target.refused(refusal))?;
    run_on(heap, setting, cipher, &mut target)
}

/// Runs the script with a cipher, on a target of the kind that is described.
fn run_kind<C: BlockCipher>(heap: Global, setting: &Setting, cipher: &C) -> Result<Outcome, Fault> {
    match setting.target.kind {
        TargetKind::Flash => run_with::<C, FlashKind>(heap, setting, cipher),
        TargetKind::Ram => run_with::<C, RamKind>(heap, setting, cipher),
    }
}

/// Runs the script with the cipher of its section.
pub(crate) fn replay(heap: Global, setting: &Setting) -> Result<Outcome, Fault> {
    let keys = &setting.keys;
    match setting.section.cipher {
        CipherKind::Gost => run_kind(heap, setting, &keys.gost(&setting.target.table)),
        CipherKind::Kuznyechik => run_kind(heap, setting, &keys.kuznyechik()),
    }
}
