//! Laws of the definitions, each the contract of a function without a body.
ghost use Rattle.std.specs.Prelude.{◌≡◌, ℕ, List, None, Option, Some};
ghost use Rattle.clap.specs.Words.{Text};
ghost use Rattle.tall_answer.specs.CommandAnswers.{AnswersWords, CommandAnswer, usage};
ghost use Rattle.tall_answer.specs.CommandOpenings.{IsAllowedByWords};
ghost use Rattle.tall_outside.specs.Shelf.{Files};
ghost use Rattle.tall_script.specs.AnswerLaws.{ExactlyOne};
ghost use Rattle.tall_words.specs.Commands.{command, run_demo, run_script};

/// For each words and files there is exactly one answer, and one number of times that a file may be opened.
pub fn words_have_one_answer()
    ensures answer { (files : Files) (words : List Text) → ExactlyOne (AnswersWords files words) }
    ensures openings { (files : Files) (words : List Text) (file : List ℕ) → ExactlyOne (IsAllowedByWords files words file) }
{}

/// The number of workers changes no answer, and nothing that may be opened.
pub fn workers_change_nothing()
    ensures script { (files : Files) (words others : List Text) (name : List ℕ) (workers more : ℕ) (a : CommandAnswer)
        → command words ≡ Some (run_script name workers) → command others ≡ Some (run_script name more) → AnswersWords files words a → AnswersWords files others a }
    ensures demo { (files : Files) (words others : List Text) (rows workers more : ℕ) (a : CommandAnswer)
        → command words ≡ Some (run_demo rows workers) → command others ≡ Some (run_demo rows more) → AnswersWords files words a → AnswersWords files others a }
    ensures openings { (files : Files) (words others : List Text) (name file : List ℕ) (workers more n : ℕ)
        → command words ≡ Some (run_script name workers) → command others ≡ Some (run_script name more) → IsAllowedByWords files words file n → IsAllowedByWords files others file n }
{}

/// The demo has its own files: its answer is the same over any others, and it opens none of them.
pub fn the_demo_takes_no_file_of_the_shelf()
    ensures answer { (files others : Files) (words : List Text) (rows workers : ℕ) (a : CommandAnswer)
        → command words ≡ Some (run_demo rows workers) → AnswersWords files words a → AnswersWords others words a }
    ensures openings { (files : Files) (words : List Text) (file : List ℕ) (rows workers n : ℕ)
        → command words ≡ Some (run_demo rows workers) → IsAllowedByWords files words file n → n ≡ 0 }
{}

/// The answer is that of the usage exactly where the words are no command.
pub fn usage_is_of_words_that_are_no_command()
    ensures none { (files : Files) (words : List Text) (a : CommandAnswer) → AnswersWords files words a → command words ≡ None → a.status ≡ usage }
    ensures only { (files : Files) (words : List Text) (a : CommandAnswer) → AnswersWords files words a → a.status ≡ usage → command words ≡ None }
{}
