use crate::{Outcome, Spaced};
use model::{Judgement, Refusal};
use std::test::Fail;

#[test]
fn each_item_follows_a_space(rt: HostRuntime) -> Result<(), Fail> {
    assert_eq!(rt;
        Spaced(&[16i64, -6]).to_string(rt.alloc())?.as_str(),
        " 16 -6"
    );
    assert_eq!(rt;
        Spaced(&["so", "it"]).to_string(rt.alloc())?.as_str(),
        " so it"
    );
    let none: [u32; 0] = [];
    assert_eq!(rt; Spaced(&none).to_string(rt.alloc())?.as_str(), "");
    Ok(())
}

#[test]
fn outcomes_are_told_in_words(rt: HostRuntime) -> Result<(), Fail> {
    for (answer, text) in [
        (
            Ok(Judgement::Shown),
            "shown: no admissible weight makes it negative",
        ),
        (Ok(Judgement::NotShown), "not shown: no more is known"),
        (Ok(Judgement::OutOfRange), "out of range: no more is known"),
        (Err(Refusal::Buffer), "refused 19"),
    ] {
        let outcome = Outcome {
            answer,
            nothing: "no more is known",
        };
        assert_eq!(rt; outcome.to_string(rt.alloc())?.as_str(), text);
    }
    Ok(())
}
