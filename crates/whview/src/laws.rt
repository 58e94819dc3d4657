//! Laws of what the program prints, which proofs call.

ghost use Rattle.whview.specs.CommandTaken.{TakenWordsAreOfTheTable, WordsOfTheTableAreTaken};
ghost use Rattle.whview.specs.OneAnswer.{OneCertifyOutput, OneCheckOutput, OneHandedOutput, OneInputOutput, OneNightOutput, OnePlanOutput, OneReplayOutput};
ghost use Rattle.whview.specs.PlanCertified.{LeastPlanIsCertified, PrintedPlanIsCertified, PrintedPlanIsReadBack};

/// A law of the definitions: the same words and the same reading have one text and one status at most, but for plans. A reading is bytes or
/// an error of the reader. Two plans have one scope and one work. Under scope all their certificate is one too, so that their lists alone
/// may differ; under scope one-way their lists and their trees may. That a budget is spent is answered only where the ordered graph has a
/// cycle, and two such answers differ in the least work that was found alone. Left out are words that `clap` refuses or answers with help,
/// and a file that the words name.
pub fn one_answer_law()
    ensures check { OneCheckOutput }
    ensures plan { OnePlanOutput }
    ensures certify { OneCertifyOutput }
    ensures night { OneNightOutput }
    ensures replay { OneReplayOutput }
    ensures handed { OneHandedOutput }
    ensures in_line { OneInputOutput }
{}

/// A law of the definitions: what `plan` prints of a plan is the text of that plan, which `certify` reads back as it was. It certifies the
/// plan at the same costs, against all strategies or against one-way ones, as its scope says. So it is of each bundle that ends with a
/// line's end and has no `@plan`, where what was printed for it is put under `@plan` below all else.
pub fn a_printed_plan_is_certified()
    ensures read_back { PrintedPlanIsReadBack }
    ensures certified { LeastPlanIsCertified }
    ensures printed { PrintedPlanIsCertified }
{}

/// A law of the definitions: words with which nothing is wrong name a command of the table, and each of its options is worth what the table
/// lets it be. This is a number within the option's bounds, which is its default where the words leave it out.
pub fn taken_words_are_of_the_table()
    ensures { TakenWordsAreOfTheTable }
{}

/// A law of the definitions: words of the table are taken. They are a command, and for some of its options what each may be given: a number
/// within the option's bounds, `tables` or `changes`, or a file. Each option comes once at most and in any order, as `--NAME=TEXT` or as
/// `--NAME TEXT`, where the text does not begin with a hyphen.
pub fn words_of_the_table_are_taken()
    ensures { WordsOfTheTableAreTaken }
{}
