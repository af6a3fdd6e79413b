//! Laws of the definitions. The functions do nothing: each contract is a law.

ghost use Rattle.command_words.specs.Laws.{WordsAskForOneThing};

/// Words ask for one thing at most: for one command, with one number under each name.
pub fn words_ask_for_one_thing()
    ensures { WordsAskForOneThing }
{}
