//! Laws over every run of the commands of a disk.

ghost use Rattle.block_disk.specs.Laws.{DataAreNamed, EndsAreEarned};
ghost use Rattle.block_disk.specs.Requests.{LateAnswersCountForNothing, NumbersAreFresh};

/// A law; it runs no code. Whatever is taken, sent, received, asked and answered, at whichever places and in
/// whatever order: each Data FIS, and each FIS that says that a command ended well, was earned by what went on at
/// its place since its command was taken.
pub fn ends_are_earned()
    ensures { EndsAreEarned }
{}

/// A law; it runs no code. In every run each Data FIS of a queued command, in both directions, and each of its DMA
/// Activate FISes is of the command that the last DMA Setup FIS named: so what the law above says by place, the
/// FISes alone tell the host.
pub fn data_are_named()
    ensures { DataAreNamed }
{}

/// A law; it runs no code. The first law holds also where the books are kept by numbers: an answer counts only if
/// it names the last request that was asked at its place, and that was neither answered nor ended by a reset. So
/// what is answered late earns no other command its end.
pub fn late_answers_count_for_nothing()
    ensures { LateAnswersCountForNothing }
{}

/// A law; it runs no code. In every run no two requests get one number.
pub fn numbers_are_fresh()
    ensures { NumbersAreFresh }
{}
