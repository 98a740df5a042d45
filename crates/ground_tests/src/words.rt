use std::alloc::Global;
use std::test::Fail;
use tempest_words::{Asked, Command, WordsError, asked};

/// The words of a command line, and what they ask for.
const TABLE: &str = "=> nothing
serial => nothing
serial 0 => serial:0
serial 007 => serial:7
serial 4294967295 => serial:4294967295
serial 4294967296 => nothing
serial -1 => nothing
serial +1 => nothing
serial x => nothing
serial - => nothing
check => check
code => code
code 0 => nothing
code --journal => nothing
show => show
check 0 => nothing
check --journal => nothing
check --meaning => nothing
check --batch=16 => nothing
show --journal => nothing
show --meaning => nothing
serial 0 --journal => serial:0+journal
--journal serial 0 => serial:0+journal
serial --meaning 0 => serial:0+meaning
serial --journal 0 --meaning => serial:0+journal+meaning
--meaning --journal serial 0 => serial:0+journal+meaning
serial 0 --journal --journal => nothing
serial 0 --meaning --journal --meaning => nothing
serial 0 --journal=1 => nothing
serial 0 --journal= => nothing
serial 0 --journals => nothing
serial 0 --j => nothing
serial 0 --counts => serial:0+counts
--counts serial 0 => serial:0+counts
serial --counts -- 0 => serial:0+counts
serial 0 --journal --counts => serial:0+journal+counts
serial 0 --counts --journal => serial:0+journal+counts
serial 0 --counts --counts => nothing
serial 0 --counts --meaning => nothing
serial 0 --meaning --counts => nothing
serial 0 --meaning --journal --counts => nothing
serial 0 --counts=1 => nothing
serial 0 --count => nothing
serial 0 -- --counts => nothing
serial -- --counts => nothing
--counts => nothing
check --counts => nothing
code --counts => nothing
show --counts => nothing
table --counts => nothing
serial 0 --batch 5 => nothing
serial 0 --batch=5 => nothing
serial 0 -journal => nothing
serial 0 -j => nothing
serial 0 -h => nothing
serial 0 --help => nothing
serial 0 --version => nothing
help => nothing
--journal => nothing
-- serial 0 => serial:0
serial -- 0 => serial:0
--journal serial -- 0 => serial:0+journal
serial 0 -- --journal => nothing
serial -- --journal => nothing
- => nothing
table => table
table 0 => nothing
table --journal => nothing
table --batch 1 => nothing
table -- => table
Table => nothing
Check => nothing
serial 0 1 => nothing
-- check => check
check -- => check
check -- -- => nothing
-- -- check => nothing
-- => nothing
run => run/16
run 0 => nothing
run run => nothing
run --journal => run/16+journal
run --counts => run/16+counts
run --counts --journal => run/16+journal+counts
run --journal --journal => nothing
run --meaning => nothing
run --batch 1 => run/1
run --batch=1000 => run/1000
run --batch 1000 --counts => run/1000+counts
run --batch=0016 => run/16
--batch=5 run => run/5
--batch 5 run => run/5
--batch run 5 => nothing
run --batch 0 => nothing
run --batch 1001 => nothing
run --batch=0 => nothing
run --batch= => nothing
run --batch => nothing
run --batch=x => nothing
run --batch -1 => nothing
run --batch +1 => nothing
run --batch - => nothing
run --batch --journal => nothing
run --batch --batch => nothing
run --batch --batch=5 => nothing
run --batch=5 --batch=5 => nothing
run --batch 5 --batch 5 => nothing
run --batch=5 --batch => nothing
run --batch -- 5 => nothing
--batch -- run => nothing
run -- --batch => nothing
run -- --batch=5 => nothing
run --batches=5 => nothing
sample => nothing
sample 5 => sample:5/16
sample 4294967295 => sample:4294967295/16
sample 4294967296 => nothing
sample 5 --batch 7 => sample:5/7
--batch=7 sample 05 => sample:5/7
sample --batch 7 -- 5 => sample:5/7
sample 5 --journal => nothing
sample 5 --counts => nothing
sample 5 --meaning => nothing
sample 5 5 => nothing
sample five => nothing
audit => audit
audit 0 => nothing
audit --journal => nothing
audit --batch 5 => nothing
-- audit => audit
replay => nothing
replay 0 => replay:0
replay 03 => replay:3
replay 4294967295 => replay:4294967295
replay 4294967296 => nothing
replay 3 --journal => nothing
replay 3 --counts => nothing
replay 3 --batch=5 => nothing
replay 3 4 => nothing
replay three => nothing";

fn words(alloc: Global, line: &str) -> Result<Vec<String>, Fail> {
    let mut words = Vec::new(alloc);
    for word in line.split(' ') {
        if !word.is_empty() {
            words.push(String::from_str(alloc, word)?)?;
        }
    }
    Ok(words)
}

fn command(alloc: Global, asked: Asked) -> Result<String, Fail> {
    let batch = asked.batch;
    match asked.command {
        Command::Run => Ok(format!(in alloc; "run/{batch}")?),
        Command::Check => Ok(String::from_str(alloc, "check")?),
        Command::Code => Ok(String::from_str(alloc, "code")?),
        Command::Show => Ok(String::from_str(alloc, "show")?),
        Command::Table => Ok(String::from_str(alloc, "table")?),
        Command::Audit => Ok(String::from_str(alloc, "audit")?),
        Command::Serial(stride) => Ok(format!(in alloc; "serial:{stride}")?),
        Command::Sample(number) => Ok(format!(in alloc; "sample:{number}/{batch}")?),
        Command::Replay(events) => Ok(format!(in alloc; "replay:{events}")?),
    }
}

fn shown(alloc: Global, asked: Asked) -> Result<String, Fail> {
    let mut text = command(alloc, asked)?;
    if asked.journal {
        text.push_str("+journal")?;
    }
    if asked.counts {
        text.push_str("+counts")?;
    }
    if asked.meaning {
        text.push_str("+meaning")?;
    }
    Ok(text)
}

fn answer(alloc: Global, words: &[String]) -> Result<String, Fail> {
    match asked(alloc, words) {
        Ok(asked) => shown(alloc, asked),
        Err(WordsError::Usage) => Ok(String::from_str(alloc, "nothing")?),
        Err(WordsError::Memory) => Err(Fail::new("out of memory")),
    }
}

#[test]
fn lines_ask(rt: HostRuntime) -> Result<(), Fail> {
    for row in TABLE.lines() {
        let (line, expected) = row.split_once("=> ").ok_or("row")?;
        let words = words(rt.alloc(), line)?;
        assert_eq!(rt;
            answer(rt.alloc(), words.as_slice())?.as_str(),
            expected,
            "{line}"
        );
    }
    Ok(())
}
