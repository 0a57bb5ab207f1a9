//! Laws of what the program answers.
ghost use Rattle.answer_laws.specs.Answers.{EveryNumberRuns, AnswersHoldBesides, BlankAnswersHoldBesides};

use gen_laws::every_number_has_a_script;
use run_laws::legal_runs_hold_besides;

/// Whatever number `gen` is given, its script is carried out, where no write fails and there is memory.
pub fn every_number_runs()
    ensures { EveryNumberRuns }
{
    every_number_has_a_script();
}

/// Whatever is answered, with a history: all that holds besides of a legal run of its script holds of it. Over blank disks nothing is
/// left to be taken for granted.
pub fn answers_hold_besides()
    ensures handed_in { AnswersHoldBesides }
    ensures blank { BlankAnswersHoldBesides }
{
    legal_runs_hold_besides();
}
