use crate::{FurtherRow, Ranking, Rows};
use model::{HandedBack, Judgement, MakeError, Preference, Refusal};
use std::process::Abort;
use std::test::Fail;

// The number of the refusal, none where there is none.
fn refused<T: Drop>(answer: Result<T, Refusal>) -> Option<u8> {
    answer.err().map(|refusal| refusal.number())
}

fn making(made: Result<Rows, MakeError>) -> Result<Option<u8>, Fail> {
    match made {
        Ok(_) => Ok(None),
        Err(MakeError::Refused(refusal)) => Ok(Some(refusal.number())),
        Err(MakeError::Memory) => Err(Fail::new("there was no memory for the rows")),
    }
}

fn adding<P: Preference + Drop>(made: Result<FurtherRow<P>, HandedBack<P, Refusal>>) -> Option<u8> {
    made.err().map(|back| back.error.number())
}

fn judging(
    rt: &impl Abort,
    answer: Result<Judgement, Refusal>,
    judgement: Judgement,
) -> Result<(), Fail> {
    let judged = answer.map_err(|_| Fail::new("the question was refused"))?;
    assert_eq!(rt; judged, judgement);
    Ok(())
}

fn ranking(dims: usize) -> Result<Ranking, Fail> {
    Ranking::new(dims).map_err(|_| Fail::new("the ranking was not made"))
}

fn barn(rt: &HostRuntime) -> Result<Rows, Fail> {
    Rows::new(rt.alloc(), 2, &[-1, 1, 0], &[1, 1]).map_err(|_| Fail::new("the rows were not made"))
}

#[test]
fn rows_are_made_within_their_limits(rt: HostRuntime) -> Result<(), Fail> {
    let heap = rt.alloc();
    assert_eq!(rt; making(Rows::new(heap, 0, &[], &[]))?, Some(4));
    assert_eq!(rt; making(Rows::new(heap, 9, &[], &[1]))?, Some(4));
    assert_eq!(rt; making(Rows::new(heap, 2, &[-1, 1], &[1, 1]))?, Some(5));
    assert_eq!(rt;
        making(Rows::new(heap, 2, &[-1, 10_001, 0], &[1, 1]))?,
        Some(5)
    );
    assert_eq!(rt;
        making(Rows::new(heap, 2, &[10_000, 0, 10_000], &[1, 1]))?,
        None
    );
    assert_eq!(rt; making(Rows::new(heap, 1, &[0; 34], &[1]))?, Some(5));
    assert_eq!(rt; making(Rows::new(heap, 1, &[0; 32], &[1]))?, None);
    Ok(())
}

#[test]
fn samples_are_checked_after_rows(rt: HostRuntime) -> Result<(), Fail> {
    let heap = rt.alloc();
    assert_eq!(rt; making(Rows::new(heap, 2, &[-1, 1, 0], &[1]))?, Some(6));
    assert_eq!(rt; making(Rows::new(heap, 2, &[-1, 1, 0], &[0, 0]))?, Some(6));
    assert_eq!(rt;
        making(Rows::new(heap, 2, &[-1, 1, 0], &[1_000_001, 1]))?,
        Some(6)
    );
    assert_eq!(rt; making(Rows::new(heap, 2, &[-1, 1, 0], &[1, 2]))?, Some(6));
    assert_eq!(rt;
        making(Rows::new(heap, 2, &[-1, 10_001, 0], &[1, 2]))?,
        Some(5)
    );
    assert_eq!(rt; making(Rows::new(heap, 2, &[-10, 0, -6], &[3, 2]))?, None);
    assert_eq!(rt;
        making(Rows::new(heap, 2, &[-10, 0, -6], &[1, 1]))?,
        Some(6)
    );
    Ok(())
}

#[test]
fn questions_are_refused_in_order(rt: HostRuntime) -> Result<(), Fail> {
    let barn = barn(&rt)?;
    assert_eq!(rt; refused(barn.ask_weight(&[1])), Some(7));
    assert_eq!(rt; refused(barn.ask_weight(&[0, 0])), Some(8));
    assert_eq!(rt; refused(barn.ask_weight(&[1_000_001, 1])), Some(8));
    assert_eq!(rt; refused(barn.ask_difference(&[16], &[])), Some(7));
    assert_eq!(rt;
        refused(barn.ask_difference(&[1_000_000_000_001, 0], &[])),
        Some(15)
    );
    assert_eq!(rt;
        refused(barn.ask_difference(&[1_000_000_000_001, 0], &[1_000_001])),
        Some(16)
    );
    assert_eq!(rt;
        refused(barn.ask_difference(&[1_000_000_000_001, 0], &[1_000_000])),
        Some(17)
    );
    assert_eq!(rt;
        refused(barn.ask_difference(&[1_000_000_000_000, 0], &[1_000_000])),
        None
    );
    Ok(())
}

#[test]
fn the_barn_shows_what_its_row_allows(rt: HostRuntime) -> Result<(), Fail> {
    let barn = barn(&rt)?;
    for (multiplier, judgement) in [
        (5, Judgement::NotShown),
        (6, Judgement::Shown),
        (16, Judgement::Shown),
        (17, Judgement::NotShown),
    ] {
        judging(
            &rt,
            barn.ask_difference(&[16, -6], &[multiplier]),
            judgement,
        )?;
    }
    Ok(())
}

#[test]
fn rankings_go_by_the_order_of_the_figures(rt: HostRuntime) -> Result<(), Fail> {
    assert_eq!(rt; refused(Ranking::new(0)), Some(4));
    assert_eq!(rt; refused(Ranking::new(9)), Some(4));
    assert_eq!(rt; refused(Ranking::new(8)), None);
    let ranking = ranking(3)?;
    assert!(rt; ranking.sample().len() == 3);
    assert_eq!(rt; ranking.ask_weight(&[3, 3, 0]).unwrap_or(false), true);
    assert_eq!(rt; ranking.ask_weight(&[3, 1, 2]).unwrap_or(true), false);
    assert_eq!(rt; refused(ranking.ask_difference(&[1, 1, 1], &[0])), Some(15));
    judging(
        &rt,
        ranking.ask_difference(&[5, -2, -3], &[]),
        Judgement::Shown,
    )?;
    judging(
        &rt,
        ranking.ask_difference(&[5, -6, 9], &[]),
        Judgement::NotShown,
    )
}

#[test]
fn further_rows_are_made_over_what_admits_their_sample(rt: HostRuntime) -> Result<(), Fail> {
    assert_eq!(rt;
        adding(FurtherRow::new(ranking(2)?, &[-10, 0], &[3, 2])),
        Some(5)
    );
    assert_eq!(rt;
        adding(FurtherRow::new(ranking(2)?, &[-10, 0, -6, 0], &[3, 2])),
        Some(5)
    );
    assert_eq!(rt;
        adding(FurtherRow::new(ranking(2)?, &[-10_001, 0, -6], &[1, 1])),
        Some(5)
    );
    assert_eq!(rt;
        adding(FurtherRow::new(ranking(2)?, &[-10, 0, -6], &[3])),
        Some(6)
    );
    assert_eq!(rt;
        adding(FurtherRow::new(ranking(2)?, &[-10, 0, -6], &[1, 1])),
        Some(6)
    );
    assert_eq!(rt;
        adding(FurtherRow::new(ranking(2)?, &[0, 0, 0], &[1, 2])),
        Some(6)
    );
    let Err(back) = FurtherRow::new(ranking(2)?, &[-10, 0, -6], &[1, 1]) else {
        return Err(Fail::new("the sample does not keep the row"));
    };
    assert_eq!(rt;
        adding(FurtherRow::new(back.value, &[-10, 0, -6], &[3, 2])),
        None
    );
    Ok(())
}

#[test]
fn rows_stand_on_one_another(rt: HostRuntime) -> Result<(), Fail> {
    let lower = FurtherRow::new(barn(&rt)?, &[-10, 0, -6], &[3, 2]).map_err(|_| Fail::new(
        "the lower row was not made",
    ))?;
    let stack = FurtherRow::new(lower, &[-10_000, 10_000, 0], &[3, 2]).map_err(|_| Fail::new(
        "the upper row was not made",
    ))?;
    assert_eq!(rt; stack.multipliers(), 3);
    assert_eq!(rt; stack.ask_weight(&[3, 2]).unwrap_or(false), true);
    assert_eq!(rt; stack.ask_weight(&[1, 1]).unwrap_or(true), false);
    let far = 1_000_000_000_000;
    judging(
        &rt,
        stack.ask_difference(&[4, -6], &[0, 1, 0]),
        Judgement::Shown,
    )?;
    judging(
        &rt,
        stack.ask_difference(&[4, -6], &[1, 0, 0]),
        Judgement::NotShown,
    )?;
    judging(
        &rt,
        stack.ask_difference(&[4, -6], &[0, 0, 1]),
        Judgement::NotShown,
    )?;
    judging(
        &rt,
        stack.ask_difference(&[-far, far], &[1, 0, 0]),
        Judgement::OutOfRange,
    )?;
    judging(
        &rt,
        stack.ask_difference(&[-far, far], &[0, 1, 0]),
        Judgement::OutOfRange,
    )?;
    judging(
        &rt,
        stack.ask_difference(&[-far, far], &[0, 0, 1]),
        Judgement::NotShown,
    )
}
