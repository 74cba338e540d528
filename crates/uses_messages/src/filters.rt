// Copies of a filter that no description gives, and of a list that takes more filters.

use crate::compare::same;
use ak_base::{Code, Text};
use ak_filter::{DeliveryIs, Filter, FilterList, SourceIs};
use std::alloc::Global;
use std::test::Fail;

// It skips, and names a handler and a code all the same.
fn filter(alloc: Global) -> Result<Filter, Fail> {
    Ok(Filter {
        what: Some(Code::GET),
        source: SourceIs::Remote,
        delivery: DeliveryIs::Dropped,
        skip: true,
        to: Some(Text::from_bytes(alloc, b"other")?),
        set_what: Some(Code::SET),
    })
}

// The parts of a filter, of which the last one is whether it names that handler.
type Parts = (Option<Code>, SourceIs, DeliveryIs, bool, Option<Code>, bool);

fn told(filter: &Filter) -> Parts {
    let named = match &filter.to {
        Some(name) => name.as_bytes() == b"other".as_slice(),
        None => false,
    };
    (
        filter.what,
        filter.source,
        filter.delivery,
        filter.skip,
        filter.set_what,
        named,
    )
}

// The only filter of a copy of a list, and how many filters the list has then.
fn copied(alloc: Global) -> Result<(Parts, usize), Fail> {
    let mut list = FilterList::new(alloc);
    list.push(filter(alloc)?)?;
    let copy = list.try_clone()?;
    list.push(filter(alloc)?)?;
    match copy.as_slice() {
        [only] => Ok((told(only), list.as_slice().len())),
        _ => Err("there is not one filter".into()),
    }
}

#[test]
fn a_copy_has_each_part(rt: HostRuntime) -> Result<(), Fail> {
    let parts = (
        Some(Code::GET),
        SourceIs::Remote,
        DeliveryIs::Dropped,
        true,
        Some(Code::SET),
        true,
    );
    same(&rt, "a copy, two", copied(rt.alloc())?, (parts, 2));
    Ok(())
}
