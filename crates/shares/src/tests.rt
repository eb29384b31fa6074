// Whole answers, worked by hand.
use crate::report::answer;
use std::alloc::Global;
use std::process::Abort;
use std::test::Fail;

fn says(rt: &impl Abort, heap: Global, words: &[&str], expected: &str) -> Result<(), Fail> {
    let mut all = Vec::new(heap);
    for word in words {
        all.push(String::from_str(heap, *word)?)?;
    }
    let text = answer(heap, all.as_slice())?;
    assert!(rt; text.as_str() == expected);
    Ok(())
}

#[test]
fn answers(rt: HostRuntime) -> Result<(), Fail> {
    let heap = rt.alloc();
    says(
        &rt,
        heap,
        &["table", "8", "255"],
        "0 0 1\n255 8 2\nweight 255 rules 2 over 0\n",
    )?;
    says(
        &rt,
        heap,
        &["nearest", "8", "51", "2"],
        "even 64 miss 13 rules 2\nrelative 32 miss 92 rules 2\n",
    )?;
    says(
        &rt,
        heap,
        &["plan", "8", "3", "51", "51"],
        "target 51 weight 0 rules 1\ntarget 51 weight 0 rules 1\nworst 51 rules 2 of 3\n",
    )?;
    says(&rt, heap, &["plan", "8", "3"], "worst 0 rules 0 of 3\n")
}

#[test]
fn refusals(rt: HostRuntime) -> Result<(), Fail> {
    let heap = rt.alloc();
    says(&rt, heap, &[], "no 1\n")?;
    says(&rt, heap, &["tables", "8", "51"], "no 1\n")?;
    says(&rt, heap, &["table", "8", "051"], "no 1\n")?;
    says(&rt, heap, &["table", "8", "4294967296"], "no 1\n")?;
    says(&rt, heap, &["table", "25", "1"], "no 3\n")?;
    says(&rt, heap, &["table", "8", "257"], "no 8\n")?;
    says(&rt, heap, &["nearest", "8", "51", "0"], "no 12\n")?;
    says(&rt, heap, &["plan", "8", "1", "51", "51"], "no 11\n")
}

#[test]
fn too_many_services(rt: HostRuntime) -> Result<(), Fail> {
    let mut words = ["1"; 68];
    words[0] = "plan";
    words[1] = "8";
    words[2] = "99";
    says(&rt, rt.alloc(), &words, "no 7\n")?;
    words[1] = "0";
    says(&rt, rt.alloc(), &words, "no 3\n")
}
