//! The calls of a list, up to the greatest length that limits may allow.

use crate::comparing::same;
use std::test::Fail;
use tsn_types::limits::LONGEST_LIST;
use tsn_types::lists::ControlList;

#[test]
fn a_list_grows_to_its_greatest_length(rt: HostRuntime) -> Result<(), Fail> {
    let mut list = ControlList::new(rt.alloc());
    for entry in 0..LONGEST_LIST {
        list.push(entry)?;
    }
    same(&rt, &list.len(), &4_096);
    same(&rt, &list.get(4_095).copied(), &Some(4_095));
    same(&rt, &list.get(4_096).copied(), &None);
    assert!(rt; list.try_clone()? == list);
    Ok(())
}
