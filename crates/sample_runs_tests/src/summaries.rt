use dsm_model::{Global, settle};
use journal::{finals_of, first_break, words_of};
use mini_asm::Flat;
use sample_runs::{sample_setup, summary};
use std::alloc;
use std::process::Abort;
use std::test::Fail;

/// The summary of sample 5, worked out by hand: node i prints 25 times what it adds, which is 6, 17, 28 and 39.
const FIVE: &str = "tempest sample 5 rounds 25
node 0 halted print 150
node 1 halted print 425
node 2 halted print 700
node 3 halted print 975
sum 36000
history agrees
end
";

const ZERO: &str = "tempest sample 0 rounds 20
node 0 halted print 20
node 1 halted print 40
node 2 halted print 60
node 3 halted print 80
sum 3200
history agrees
end
";

// The summary of the serial run of a sample on the model.
fn summary_of(alloc: alloc::Global, number: u32, stride: u32) -> Result<Vec<u8>, Fail> {
    let setup = sample_setup(alloc, number)?;
    let mut g = Global::new(alloc, &setup)?;
    let entries = settle(alloc, &mut g, stride)?;
    if entries.len() > 10_000_000 {
        return Err(Fail::new("too many entries"));
    }
    let mut flat = Flat::new(alloc, setup.shape(), setup.init(), setup.programs())?;
    let broken = first_break(&mut flat, entries.items());
    let (finals, words) = (finals_of(alloc, &g)?, words_of(alloc, &g)?);
    let (entries, finals, words) = (entries.items(), finals.items(), words.items());
    Ok(summary(alloc, &setup, number, entries, finals, words, broken)?)
}

fn expect_summary(
    rt: &impl Abort,
    alloc: alloc::Global,
    number: u32,
    stride: u32,
    due: &str,
) -> Result<(), Fail> {
    let text = summary_of(alloc, number, stride)?;
    assert_eq!(rt; text.as_slice(), due.as_bytes());
    Ok(())
}

#[test]
fn samples_are_summed_up(rt: HostRuntime) -> Result<(), Fail> {
    let alloc = rt.alloc();
    expect_summary(&rt, alloc, 5, 0, FIVE)?;
    expect_summary(&rt, alloc, 5, 7, FIVE)?;
    expect_summary(&rt, alloc, 0, 1, ZERO)?;
    Ok(())
}
