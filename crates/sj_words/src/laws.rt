// The law of the earlier commands.
ghost use Rattle.sj_words.specs.Earlier.{EarlierCommandsStay};

/// What words ask for as a command of an earlier grammar, they ask for in each later one.
pub fn earlier_commands_stay()
    ensures { EarlierCommandsStay }
{}
