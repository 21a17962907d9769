// Items that are taken out of lists.
use view_lists::take_from;

#[test]
fn the_item_at_a_place_is_taken_out(rt: HostRuntime) {
    let mut items = vec![in rt.alloc(); 5u32, 6, 7].expect(&rt, "memory");
    assert!(rt; take_from(&mut items, 0) == 5 && items.as_slice() == [6, 7].as_slice());
    assert!(rt; take_from(&mut items, 1) == 7 && items.as_slice() == [6].as_slice());
    assert!(rt; take_from(&mut items, 0) == 6 && items.is_empty());
}
