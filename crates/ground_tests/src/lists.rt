//! Lists: a list of numbers, and a list of lists.
use listed::Listed;
use std::alloc::{AllocError, Global};

fn comes_back_whole(alloc: Global) -> bool {
    let Ok(numbers) = Vec::from_slice(alloc, &[3, 1, 2]) else {
        return false;
    };
    let list = Listed::from_vec(numbers);
    let is_list = list.as_slice() == [3, 1, 2].as_slice();
    let mut again = list.into_vec();
    is_list && again.push(5).is_ok() && again.as_slice() == [3, 1, 2, 5].as_slice()
}

fn two_lists(alloc: Global) -> Result<Vec<Listed<u8>>, AllocError> {
    let first = Listed::from_vec(Vec::from_slice(alloc, &[7u8])?);
    let second = Listed::from_vec(Vec::new(alloc));
    Ok(vec![in alloc; first, second]?)
}

fn stand_in_lists(alloc: Global) -> bool {
    match two_lists(alloc) {
        Ok(lists) => {
            let rows = Listed::from_vec(lists);
            match rows.as_slice() {
                [first, second] => first.as_slice() == [7u8].as_slice()
                    && second.as_slice().is_empty(),
                _ => false,
            }
        }
        Err(_) => false,
    }
}

#[test]
fn lists(rt: HostRuntime) {
    assert!(rt; comes_back_whole(rt.alloc()));
    assert!(rt; stand_in_lists(rt.alloc()));
}
