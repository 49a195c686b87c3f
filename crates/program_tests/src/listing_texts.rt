// What a text lists, and where other texts go wrong.
use sj_text::{ListingError, parse_listing, print_listing};
use sj_text_spec::each_has_one_listing;
use std::alloc::Global;
use std::test::Fail;

const HI: &str =
    "(class \"java.lang.Object\" Class - [] [] [(method PublicStatic \"main;V\" [] none (Log (StringLiteral \"hi\")))])";

#[test]
fn a_class_that_logs(rt: HostRuntime) -> Result<(), Fail> {
    let alloc = rt.alloc();
    let class = parse_listing(alloc, HI.as_bytes())?;
    each_has_one_listing();
    let again = print_listing(alloc, &class)?;
    assert_eq!(rt; again.as_slice(), HI.as_bytes());
    Ok(())
}

fn is_bad_at(alloc: Global, text: &str, place: u64) -> bool {
    parse_listing(alloc, text.as_bytes()).err() == Some(ListingError::BadListing(place))
}

#[test]
fn places_of_what_lists_nothing(rt: HostRuntime) {
    let alloc = rt.alloc();
    let are_bad = is_bad_at(alloc, "(class", 6)
        && is_bad_at(alloc, "x", 0)
        && is_bad_at(alloc, "", 0);
    assert!(rt; are_bad);
}
