//! The laws.

ghost use Rattle.sata_disk_books.specs.Books.{CommandsAreAsked, DataAreGiven};
ghost use Rattle.sata_disk_books.specs.Ended.{EndsAreOfPages, OnlyEndsEnd, PagesAreOfPlaces, PlacesAreTags, SinglesAreOfPages};

/// A law. In every run the Data FIS of a read that goes next has the bytes that the caller gave for the sectors of its command, those that
/// come behind the bytes that went before. The books have that command, and what was given and sent for it since it was taken.
pub fn data_are_given()
    ensures { DataAreGiven }
{
    sata_disk_laws::ends_are_earned();
}

/// A law. In every run the command that the books have at a place is one that the host asked for: a Register FIS was heard whose fields say
/// its sectors, its direction and its place.
pub fn commands_are_asked()
    ensures { CommandsAreAsked }
{}

/// A law. In every run each tag in the Set Device Bits FIS that goes next is the place of a command in the books that has earned its end:
/// of a read all bytes were given for its sectors, and all were sent; of a write all that came were stored, and flushed where they are to
/// last. No other FIS says that a queued command ended well. So has the command of a place as a Register FIS goes that says that it ended well.
pub fn ends_are_of_pages()
    ensures ends { EndsAreOfPages }
    ensures only { OnlyEndsEnd }
    ensures singles { SinglesAreOfPages }
{
    sata_disk_laws::ends_are_earned();
    sata_disk_laws::fises_are_told();
}

/// A law. In every run the command that the books have at a place has this place. That of a queued command is the tag in its FIS.
pub fn places_are_tags()
    ensures pages { PagesAreOfPlaces }
    ensures tags { PlacesAreTags }
{}
