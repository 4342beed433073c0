//! A list that is made, added to, written in place and given back.
use crate::Listed;
use std::test::Fail;

#[test]
fn a_list_is_written_in_place_and_given_back(rt: HostRuntime) -> Result<(), Fail> {
    let mut list = Listed::from_vec(vec![in rt.alloc(); 3u8, 4]?);
    list.push(5)?;
    for item in list.as_mut_slice() {
        *item = item.wrapping_add(2);
    }
    let raised: &[u8] = &[5, 6, 7];
    assert_eq!(rt; list.as_slice(), raised);
    assert_eq!(rt; list.into_vec().as_slice(), raised);
    Ok(())
}
