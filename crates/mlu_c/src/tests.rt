//! Each export on worked operands: the statuses, and what is written.
use super::*;
use std::test::Fail;

#[test]
fn value_of_a_table(rt: HostRuntime) -> Result<(), Fail> {
    let mut out = [7; 4];
    let point = [2, 0, 0, 0, 3, 0, 0, 0];
    assert_eq!(rt;
        mlu_eval_base(rt.alloc(), &[1, 2, 3, 4], &point, &mut out),
        0
    );
    assert!(rt; out == [8, 0, 0, 0]);
    assert_eq!(rt; mlu_eval_base(rt.alloc(), &[1, 2, 3], &point, &mut out), 1);
    assert_eq!(rt; mlu_eval_base(rt.alloc(), &[1, 2], &point, &mut out), 2);
    assert_eq!(rt;
        mlu_eval_base(rt.alloc(), &[1, 2, 3, 2013265921], &point, &mut out),
        3
    );
    assert!(rt; out == [8, 0, 0, 0]);
    Ok(())
}

#[test]
fn tables_in_both_orders(rt: HostRuntime) -> Result<(), Fail> {
    let mut out = [7; 16];
    let point = [2, 0, 0, 0, 3, 0, 0, 0];
    assert_eq!(rt;
        mlu_equality_weights_msb(rt.alloc(), &point, &[1, 0, 0, 0], &mut out),
        0
    );
    assert!(rt;
        out == [
            2, 0, 0, 0, 2013265918, 0, 0, 0, 2013265917, 0, 0, 0, 6, 0, 0, 0
        ]
    );
    assert_eq!(rt;
        mlu_equality_weights_lsb(rt.alloc(), &point, &[1, 0, 0, 0], &mut out),
        0
    );
    assert!(rt;
        out == [
            2, 0, 0, 0, 2013265917, 0, 0, 0, 2013265918, 0, 0, 0, 6, 0, 0, 0
        ]
    );
    assert_eq!(rt;
        mlu_fix_prefix_var_mut(rt.alloc(), &mut out, &[1, 0, 0, 0]),
        0
    );
    assert!(rt;
        out == [
            2013265918, 0, 0, 0, 6, 0, 0, 0, 2013265918, 0, 0, 0, 6, 0, 0, 0
        ]
    );
    Ok(())
}

#[test]
fn values_of_tables(rt: HostRuntime) -> Result<(), Fail> {
    let mut out = [7; 4];
    let table = [1, 0, 0, 0, 2, 0, 0, 0, 3, 0, 0, 0, 4, 0, 0, 0];
    let point = [2, 0, 0, 0, 3, 0, 0, 0];
    assert_eq!(rt; mlu_eval_ext(rt.alloc(), &table, &point, &mut out), 0);
    assert!(rt; out == [8, 0, 0, 0]);
    assert_eq!(rt;
        mlu_eval_next_base(rt.alloc(), &[1, 2, 3, 4], &point, &mut out),
        0
    );
    assert!(rt; out == [3, 0, 0, 0]);
    Ok(())
}

#[test]
fn batches_written_and_added(rt: HostRuntime) -> Result<(), Fail> {
    let mut out = [7; 16];
    let point = [2, 0, 0, 0, 3, 0, 0, 0];
    assert_eq!(rt;
        mlu_eval_eq_batch(rt.alloc(), false, &point, &[1, 0, 0, 0], &mut out),
        0
    );
    assert!(rt;
        out == [
            2, 0, 0, 0, 2013265918, 0, 0, 0, 2013265917, 0, 0, 0, 6, 0, 0, 0
        ]
    );
    assert_eq!(rt;
        mlu_eval_eq_batch(rt.alloc(), true, &point, &[1, 0, 0, 0], &mut out),
        0
    );
    assert!(rt;
        out == [
            4, 0, 0, 0, 2013265915, 0, 0, 0, 2013265913, 0, 0, 0, 12, 0, 0, 0
        ]
    );
    Ok(())
}

#[test]
fn last_variable_folded(rt: HostRuntime) -> Result<(), Fail> {
    let mut table = [1, 0, 0, 0, 2, 0, 0, 0, 3, 0, 0, 0, 4, 0, 0, 0];
    assert_eq!(rt;
        mlu_fix_suffix_var_mut(rt.alloc(), &mut table, &[5, 0, 0, 0]),
        0
    );
    assert!(rt; table == [6, 0, 0, 0, 8, 0, 0, 0, 3, 0, 0, 0, 4, 0, 0, 0]);
    Ok(())
}

#[test]
fn compressions(rt: HostRuntime) -> Result<(), Fail> {
    let mut out = [7; 8];
    let (table, point, one) = ([1, 2, 3, 4], [2, 0, 0, 0], [1, 0, 0, 0]);
    assert_eq!(rt;
        mlu_compress_prefix(rt.alloc(), &table, &point, &one, &mut out),
        0
    );
    assert!(rt; out == [5, 0, 0, 0, 6, 0, 0, 0]);
    assert_eq!(rt;
        mlu_compress_suffix(rt.alloc(), &table, &point, &one, &mut out),
        0
    );
    assert!(rt; out == [3, 0, 0, 0, 5, 0, 0, 0]);
    Ok(())
}

#[test]
fn a_proof_and_its_test(rt: HostRuntime) -> Result<(), Fail> {
    let table = [1, 0, 0, 0, 2, 0, 0, 0, 3, 0, 0, 0, 4, 0, 0, 0];
    let (point, challenges) = ([2, 0, 0, 0, 3, 0, 0, 0], [5, 0, 0, 0, 7, 0, 0, 0]);
    let (mut rounds, mut claims) = ([0; 24], [0; 12]);
    assert_eq!(rt;
        mlu_sumcheck_run(
            rt.alloc(),
            &table,
            &point,
            &challenges,
            &mut rounds,
            &mut claims
        ),
        0
    );
    assert!(rt;
        rounds
            == [
                2013265917, 0, 0, 0, 10, 0, 0, 0, 6, 0, 0, 0, 2013265613, 0, 0, 0, 742, 0, 0, 0,
                70, 0, 0, 0
            ]
    );
    assert!(rt; claims == [8, 0, 0, 0, 196, 0, 0, 0, 8316, 0, 0, 0]);
    let mut last = [7; 4];
    assert_eq!(rt;
        mlu_sumcheck_verify(rt.alloc(), &[9, 0, 0, 0], &rounds, &challenges, &mut last),
        5
    );
    assert!(rt; last == [7, 7, 7, 7]);
    assert_eq!(rt;
        mlu_sumcheck_verify(rt.alloc(), &[8, 0, 0, 0], &rounds, &challenges, &mut last),
        0
    );
    assert!(rt; last == [8316, 0, 0, 0]);
    Ok(())
}
