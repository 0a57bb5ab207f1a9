use capability::*;

#[test]
fn rights_never_grow(rt: HostRuntime) {
    let uid = Uid {
        node: 1,
        epoch: 1,
        serial: 1,
    };
    let whole = mint(uid);
    let two = restrict(whole, Rights { bits: 6 });
    assert!(rt; two.rights.bits == 6);
    let one = restrict(two, Rights { bits: 12 });
    assert!(rt; one.rights.bits == 4 && one.uid == uid);
    assert!(rt; !allows(one, Rights { bits: 2 }) && allows(one, Rights { bits: 4 }));
    assert!(rt; below(one, whole) && !below(whole, one));
}

#[test]
fn lists_keep_what_they_are_given(rt: HostRuntime) {
    let body: Body = Seq {
        items: vec![in rt.alloc(); 1, 2].expect(&rt, "memory"),
    };
    assert!(rt; body.as_slice().len() == 2);
    let calls: CallNumbers = Seq {
        items: vec![in rt.alloc(); 7].expect(&rt, "memory"),
    };
    assert!(rt; calls.as_slice().len() == 1);
}
