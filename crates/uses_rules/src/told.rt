//! The lines of edits for which there was no memory.

use crate::compare::same;
use ak_base::Bytes;
use ak_desk::EditAnswer;
use ak_handler::HandlerFault;
use ak_print::{Told, print_outcome};
use std::alloc::Global;
use std::test::Fail;

fn line_of(alloc: Global, answer: EditAnswer) -> Result<Bytes, Fail> {
    let mut line = Bytes::new(alloc);
    print_outcome(alloc, &Told::Edit(answer), &mut line)?;
    Ok(line)
}

#[test]
fn want_of_memory_is_printed(rt: HostRuntime) -> Result<(), Fail> {
    let wanted = b"edit B_NO_MEMORY\n".as_slice();
    let line = line_of(rt.alloc(), EditAnswer::NoMemory)?;
    same(&rt, "no entry", line.as_slice(), wanted);
    let refused = EditAnswer::Refused(HandlerFault::NoMemory);
    let line = line_of(rt.alloc(), refused)?;
    same(&rt, "refused", line.as_slice(), wanted);
    Ok(())
}
