// The report space of a mesh, a record for each element, and how many records there are of each kind.
// An inner crate, for the crates that write reports, which meet what each `requires` asks.
#![tactic(auto)]

ghost use Rattle.std.specs.Prelude.{◌≡◌, true, ◌++◌, ◌+◌, ◌-◌, ◌*◌, ◌^◌, ◌<◌, ◌≤◌, length, take, drop};
ghost use Rattle.definitions.specs.Limits.{record_words};
ghost use Rattle.definitions.specs.Record.{kind_word};
ghost use Rattle.verdict_theory.specs.Kinds.{is_kind, counted, counts_total};
ghost use Rattle.inspection_counts.specs.Meaning.{counts_held};

use inspection_counts::Counts;
use limits::RECORD_WORDS;

// The words of record e into the report space; the rest of it stays.
fn put(words: [i64; RECORD_WORDS], e: usize, report: &mut [i64])
    requires { record_words * e + record_words ≤ length report.old }
    ensures { report.new ≡ take (record_words * e) report.old ++ words ++ drop (record_words * e + record_words) report.old }
{
    let at = RECORD_WORDS * e;
    report[at..at + RECORD_WORDS].copy_from_slice(&words);
}

// The counts with one record more, by its word 0, which is that of a kind: a number, since a record is nine words (`kind_word` of the definitions).
fn counted(kind: i64, n: Counts) -> Counts
    requires { (is_kind kind ≡ true) × (counts_total (counts_held n) < 2 ^ 32 - 1) }
    ensures { counts_held result ≡ counted kind (counts_held n) }
{
    match kind {
        0 => Counts {
            valid: n.valid + 1,
            ..n
        },
        1 => Counts {
            invalid: n.invalid + 1,
            ..n
        },
        2 => Counts {
            undecided: n.undecided + 1,
            ..n
        },
        _ => Counts {
            refused: n.refused + 1,
            ..n
        },
    }
}

// The words of record e into the report space, and the counts with this record.
pub fn enter(words: [i64; RECORD_WORDS], e: usize, n: Counts, report: &mut [i64]) -> Counts
    requires { (is_kind (kind_word words) ≡ true) × (counts_total (counts_held n) < 2 ^ 32 - 1) × (record_words * e + record_words ≤ length report.old) }
    ensures result_value { counts_held result ≡ counted (kind_word words) (counts_held n) }
    ensures report_after { report.new ≡ take (record_words * e) report.old ++ words ++ drop (record_words * e + record_words) report.old }
{
    let kind = words[0];
    put(words, e, report);
    counted(kind, n)
}
