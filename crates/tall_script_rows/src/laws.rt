//! The runs of the first script and of the demo, each as the contract of a function without a body.
ghost use Rattle.std.specs.Prelude.{codes};
ghost use Rattle.tall_answer.specs.CommandAnswers.{AnswersWords};
ghost use Rattle.tall_outside.specs.Shelf.{Files};
ghost use Rattle.tall_script.specs.Answers.{Answers};
ghost use Rattle.tall_script_rows.specs.DemoRun.{demo_answer, demo_words};
ghost use Rattle.tall_script_rows.specs.FirstRun.{first_files};
ghost use Rattle.tall_script_rows.specs.RowWords.{prints};

/// The first script over the first file, from the bytes of both to the line that is printed.
pub fn the_first_script_from_its_bytes()
    ensures { Answers first_files (codes "s.m") (prints (codes "s = int16 31767\n")) }
{}

/// The demo over five rows, from the words that ask for it, through the bytes of its script and of its table, to the lines that are
/// printed; whatever files are there.
pub fn the_demo_from_its_words()
    ensures { (files : Files) → AnswersWords files demo_words demo_answer }
{}
