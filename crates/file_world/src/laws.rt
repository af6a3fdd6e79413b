//! Laws of the definitions. The functions do nothing: each contract is a law.

ghost use Rattle.file_world.specs.Laws.{TreesStayTrees, WalksAreLongEnough, NamesAreChildren, RefusalsComeInOrder, NumbersAreUsedOnce, MarksStayMarks, HalvesFollow, MarksChangeAlone, HalvesKeepStep, WorldsStayWorlds, FreshIsWorld, RenamesKeepTheRest, WritesAreReadBack, TruncatesKeepTheFirst, ContentsChangeAlone, AttributesChangeAlone, OwnersChangeAlone, NeedsHaveProcaps};

/// An operation that is not refused leaves a tree a tree.
pub fn trees_stay_trees()
    ensures { TreesStayTrees }
{}

/// The walk to the root that looks for a loop tells of each node of a tree whether it stands in another.
pub fn walks_are_long_enough()
    ensures { WalksAreLongEnough }
{}

/// The names in a directory are in byte order, and each stands for the child of that name.
pub fn names_are_children()
    ensures { NamesAreChildren }
{}

/// An operation is refused exactly if one of the tests in its table holds, and then as the first that holds says;
/// otherwise it gets its reply.
pub fn refusals_come_in_order()
    ensures { RefusalsComeInOrder }
{}

/// No number is used again: the next number never falls, each number in use was in use before or was the next, and a
/// number that is gone stays gone.
pub fn numbers_are_used_once()
    ensures { NumbersAreUsedOnce }
{}

/// An operation on owners and attributes that may be asked for and is not refused leaves them within their limits, if
/// its owner is a principal's name and its value a text.
pub fn marks_stay_marks()
    ensures { MarksStayMarks }
{}

/// A change of the tree changes the tree's half of a world as it changes a tree alone, and the other half by the
/// operation that follows it.
pub fn halves_follow()
    ensures { HalvesFollow }
{}

/// Reading, setting and removing an attribute, and changing an owner, change that half of a world as they change it
/// alone, and leave the tree.
pub fn marks_change_alone()
    ensures { MarksChangeAlone }
{}

/// Each operation that is not refused does to each half of a world what the half's own operation does.
pub fn halves_keep_step()
    ensures { HalvesKeepStep }
{}

/// An operation of a principal that is not refused leaves a world within its limits, if its owner is a principal's name
/// and its value a text.
pub fn worlds_stay_worlds()
    ensures { WorldsStayWorlds }
{}

/// The world with the root alone is within its limits, and its halves are the tree and the marks of the root alone.
pub fn fresh_is_world()
    ensures { FreshIsWorld }
{}

/// A node that is renamed keeps its number, owner, attributes and contents, and every other node stays as it is, also
/// those below it.
pub fn renames_keep_the_rest()
    ensures { RenamesKeepTheRest }
{}

/// What is written is read back, the bytes beside it stay, and a gap before it is filled with zero bytes.
pub fn writes_are_read_back()
    ensures { WritesAreReadBack }
{}

/// A file that is cut keeps its first bytes, and one that is filled up keeps all of them and has zero bytes after them.
pub fn truncates_keep_the_first()
    ensures { TruncatesKeepTheFirst }
{}

/// A file that is written or cut keeps all but its contents, and every other node stays as it is.
pub fn contents_change_alone()
    ensures { ContentsChangeAlone }
{}

/// An attribute that is set has its value, and one that is removed is gone; the node's other attributes, all else that is
/// kept of it, and every other node stay as they are.
pub fn attributes_change_alone()
    ensures { AttributesChangeAlone }
{}

/// A node that gets another owner keeps all else, and every other node stays as it is.
pub fn owners_change_alone()
    ensures { OwnersChangeAlone }
{}

/// The needs of an operation have rising places from 1 on, none of them beyond the procaps that it brings.
pub fn needs_have_procaps()
    ensures { NeedsHaveProcaps }
{}
