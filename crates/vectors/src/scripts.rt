// A worked script, and whether what is printed for it is what was worked out.
ghost use Rattle.std.specs.Prelude.{IfOk};
ghost use Rattle.vectors.specs.Compared.{ScriptCompared};

use std::alloc::{AllocError, Global};

// A hall of four replicas and one client: it reads, three replicas answer, and the third answer is handed over twice.
const SCRIPT: &[u8] =
    b"S 1 4 1 15 0 0 412\nR 1\nD 0 100\nD 0 101\nD 0 102\nD 1 1\nD 1 1\nD 2 1\nD 3 1\nT 1\n";

// The set of epoch 0, the read from moment 1 to moment 2, and the refusal of line 7.
const PRINTED: &[u8] =
    b"configurations 1\n0 15\noperations 1\n1 R 1 2 0 0 0 412\nrefusals 1\n7 14 client\n";

// Whether what is printed for the script is what was worked out.
pub(crate) fn script_agrees(heap: Global) -> Result<bool, AllocError>
    ensures { IfOk result (λ agrees. ScriptCompared SCRIPT.now PRINTED.now agrees) }
{
    let printed = runner::run(heap, SCRIPT)?;
    Ok(printed.as_bytes() == PRINTED)
}
