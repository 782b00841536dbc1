//! Each call once, with ample memory.

use room_list::RoomList;
use std::test::Fail;

#[test]
fn each_call_once(rt: HostRuntime) -> Result<(), Fail> {
    let mut list: RoomList<u16> = RoomList::new(rt.alloc(), 2)?;
    assert!(rt; list.is_empty());
    list.push(10);
    list.push(20);
    assert_eq!(rt; list.as_slice(), [10, 20].as_slice());
    list.reserve(1)?;
    list.push(30);
    list.append(&[40, 50])?;
    assert!(rt; !list.is_empty());
    assert_eq!(rt; list.as_slice(), [10, 20, 30, 40, 50].as_slice());
    assert_eq!(rt; list.len(), 5);
    assert_eq!(rt; *list.at(3), 40);
    assert_eq!(rt; list.item(2), 30);
    list.set(3, 45);
    assert_eq!(rt; list.remove(1), 20);
    assert_eq!(rt; list.as_slice(), [10, 30, 45, 50].as_slice());
    list.sort_unstable_by_key(|n| *n % 50);
    assert_eq!(rt; list.as_slice(), [50, 10, 30, 45].as_slice());
    list.clear();
    assert_eq!(rt; list.len(), 0);
    // The room is kept.
    list.push(60);
    list.put_first(70);
    list.put_first(80);
    assert_eq!(rt; list.as_slice(), [80, 70, 60].as_slice());
    list.fit();
    assert_eq!(rt; list.as_slice(), [80, 70, 60].as_slice());
    Ok(())
}
