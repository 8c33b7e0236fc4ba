use super::RawBox;

#[test]
fn a_box_comes_back_with_its_value(rt: HostRuntime) {
    let Ok(boxed) = Box::new(rt.alloc(), 7u64) else {
        return assert!(rt; false, "no memory");
    };
    let again = RawBox::of(boxed).into_box();
    assert_eq!(rt; *again, 7);
}

#[test]
fn what_the_value_owns_comes_back_with_it(rt: HostRuntime) {
    let Ok(list) = Vec::from_slice(rt.alloc(), &[1u8, 2, 3]) else {
        return assert!(rt; false, "no memory");
    };
    let Ok(boxed) = Box::new(rt.alloc(), list) else {
        return assert!(rt; false, "no memory");
    };
    let mut again = RawBox::of(boxed).into_box();
    assert!(rt; again.push(4).is_ok());
    assert_eq!(rt; again.as_slice(), [1, 2, 3, 4].as_slice());
}
