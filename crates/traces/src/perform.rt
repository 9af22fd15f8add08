//! One call of a trace, made by the real call.

ghost use Rattle.std.specs.Prelude.{◌≡◌};
ghost use Rattle.blocks.specs.Bytes.{Bytes};
ghost use Rattle.downloads.specs.Received.{body_in};
ghost use Rattle.traces.specs.Traces.{OfBytes};
ghost use Rattle.traces.specs.Meaning.{call_of, answer_of, section_of, closed_in};
ghost use Rattle.traces.specs.Bench.{SameBench, Serves, PerformsOn};

use crate::answers::{Moved, on_close, on_frame, on_give, on_reopen, on_verify};
use crate::call::{Bench, Call, Phase};
use blocks::{BlockCipher, byte_count};
use downloads::pages::program;
use downloads::received::Received;
use targets::Target;

/// That a body holds bytes. Nothing is computed that is used.
fn bring_bytes(received: &Received<'_, '_>)
    ensures { Bytes (body_in received.now) }
{
    let _count = byte_count(received.body);
}

/// Makes one call.
pub(crate) fn perform<C: BlockCipher, T: Target>(
    phase: Phase,
    bench: &mut Bench<'_, '_, '_, '_, '_, C, T>,
    call: Call<'_>,
) -> Moved
    requires { Serves C.BlockCipher.map (section_of phase) bench.old }
    ensures section { section_of result.phase ≡ section_of phase }
    ensures same { SameBench bench.old bench.new }
    ensures bytes { OfBytes (call_of call.entry) }
    ensures performs { PerformsOn C.BlockCipher.map T.Target.state (section_of phase) (closed_in phase) (closed_in result.phase) bench.old bench.new (call_of call.entry) (answer_of result.answer) }
{
    // With this comes that the body holds bytes.
    bring_bytes(&bench.received);
    let section = phase.section();
    match call {
        Call::Frame { first, bytes } => {
            let _bytes = byte_count(bytes);
            on_frame(phase, &mut bench.received, first, bytes)
        }
        Call::Give { block } => {
            let answer = on_give(&section, bench.cipher, bench.received.shared(), block);
            Moved { phase, answer }
        }
        Call::Erase { page: erased } => {
            let answer = bench.target.erase(erased).into();
            Moved { phase, answer }
        }
        Call::Program { page: j } => {
            let said = program(
                &section,
                bench.cipher,
                bench.target,
                bench.received.shared(),
                j,
                bench.page,
            );
            let answer = said.into();
            Moved { phase, answer }
        }
        Call::Close => on_close(phase, bench.received.shared()),
        Call::Reopen => on_reopen(phase),
        Call::Verify => on_verify(phase, bench.target, bench.tag, bench.page),
    }
}
