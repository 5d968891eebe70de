//! The phases of a transaction that all bricks carry out.
use crate::transaction_tests::lines::{asks, begins, cuts, is_acknowledged, tells_three};
use afr_lines::{Request, Told};

#[test]
fn a_cut_that_all_bricks_carry_out_is_acknowledged(rt: HostRuntime) {
    let mut transaction = cuts();
    begins(&mut transaction);
    tells_three(&mut transaction, [Told::Done; 3]);
    assert!(rt; matches!(asks(&transaction, 0), Some(Request::Apply { attempt: 10 })));
    tells_three(&mut transaction, [Told::Done; 3]);
    tells_three(&mut transaction, [Told::Done; 3]);
    tells_three(&mut transaction, [Told::Done; 3]);
    assert!(rt; transaction.is_over() && is_acknowledged(&transaction));
}
