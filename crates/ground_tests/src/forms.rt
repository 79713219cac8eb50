// Forms: codes of lists and fixed lists, and forms that would have more than 16 digits.
use form::data_type::DataType;
use ledger::stop::{Reason, Stop};
use std::test::Fail;

// The form under so many offset lists of width 4.
fn nested(leaf: DataType, lists: u8) -> Result<DataType, Stop> {
    let mut form = leaf;
    for _ in 0..lists {
        form = form.layer(8)?;
    }
    Ok(form)
}

fn too_long() -> Result<DataType, Stop> {
    Err(Stop::new(Reason::FormTooLong))
}

#[test]
fn codes(rt: HostRuntime) {
    let chute = DataType::leaf(3);
    assert_eq!(rt;
        [
            chute.layer(8),
            chute.layer(11),
            chute.fixed(3),
            chute.fixed(2147483647)
        ],
        [
            Ok(DataType {
                code: 0x8300000000000000
            }),
            Ok(DataType {
                code: 0xB300000000000000
            }),
            Ok(DataType {
                code: 0xC000000033000000
            }),
            Ok(DataType {
                code: 0xC7FFFFFFF3000000
            }),
        ]
    );
}

#[test]
fn sixteen_digits_at_most(rt: HostRuntime) -> Result<(), Fail> {
    let leaf = DataType::leaf(1);
    assert_eq!(rt;
        [nested(leaf, 15), nested(leaf, 16)],
        [
            Ok(DataType {
                code: 0x8888888888888881
            }),
            too_long()
        ]
    );
    assert_eq!(rt;
        [nested(leaf, 15)?.fixed(0), nested(leaf, 15)?.layer(9)],
        [too_long(), too_long()]
    );
    Ok(())
}

#[test]
fn fixed_list_over_seven_digits_at_most(rt: HostRuntime) -> Result<(), Fail> {
    let seven = nested(DataType::leaf(5), 6)?;
    let eight = nested(DataType::leaf(5), 7)?;
    assert_eq!(rt;
        [seven.fixed(1), eight.fixed(1)],
        [
            Ok(DataType {
                code: 0xC000000018888885
            }),
            too_long()
        ]
    );
    assert_eq!(rt; DataType::leaf(3).fixed(3)?.fixed(3), too_long());
    Ok(())
}

#[test]
fn digits_and_sameness(rt: HostRuntime) -> Result<(), Fail> {
    let chute = DataType::leaf(3);
    let fixed = chute.fixed(0)?;
    assert_eq!(rt;
        [chute.digits(), chute.layer(8)?.digits(), fixed.digits()],
        [1, 2, 10]
    );
    assert_eq!(rt;
        [chute.same(DataType::leaf(3)), chute.same(fixed)],
        [true, false]
    );
    Ok(())
}
