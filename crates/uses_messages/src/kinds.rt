// The forms of specifiers, and copies of these.

use crate::compare::same;
use crate::specifiers::specifier;
use ak_message::AtRef;
use std::alloc::Global;
use std::process::Abort;
use std::test::Fail;

// The numbers of the form, of what is borrowed, and of a copy.
fn forms_of(alloc: Global, form: u32) -> Result<[u32; 3], Fail> {
    let at = specifier(alloc, form)?.at;
    let copy = at.try_clone()?;
    Ok([at.form(), at.as_ref().form(), copy.form()])
}

// A copy of `p` of the element with the name `n`, where it is borrowed.
fn is_borrowed(rt: &impl Abort, alloc: Global) -> Result<(), Fail> {
    let copy = specifier(alloc, 6)?.try_clone()?;
    let borrowed = copy.as_ref();
    let name = match borrowed.at {
        AtRef::Name(name) => name.as_str(),
        _ => "",
    };
    let told = (borrowed.property.as_str(), name);
    same(rt, "a copy", told, ("p", "n"));
    Ok(())
}

#[test]
fn forms_have_numbers_and_are_copied(rt: HostRuntime) -> Result<(), Fail> {
    for form in 1..8 {
        same(&rt, form, forms_of(rt.alloc(), form)?, [form; 3]);
    }
    is_borrowed(&rt, rt.alloc())
}
