ghost use Rattle.std.specs.Prelude.{ℕ, List};
ghost use Rattle.issuer_laws.specs.Parts.{Parted};
ghost use Rattle.issuer_words.specs.Words.{Frame, ReplyBody, Rows};
ghost use Rattle.parts_books.specs.Together.{AreEnough, HaveTheRows, IsOneOrder, LeavesPartsSound, MakeTheWhole};

/// A batch in parts that share no row: decided apart, each part on its book, by whatever decides one message after another, the parts'
/// replies in the order of arrival are those of the whole batch, and the rest with the books behind the parts is the book behind it.
pub fn parts_make_the_whole()
    ensures { (rows : Rows) (ms : Parted) (count : ℕ) → MakeTheWhole rows ms count }
{}

/// Each row that a message may need is in the book of its part, each other row in the rest, the same there. No book has another row; what
/// stands in two of them is an account.
pub fn each_row_has_its_place()
    ensures { (rows : Rows) (ms : Parted) → HaveTheRows rows ms }
{}

/// Where nothing is wrong with the book, nothing is wrong with the parts' books nor with the rest, so that each is read again from its text.
pub fn each_book_is_sound()
    ensures { (rows : Rows) (ms : Parted) → LeavesPartsSound rows ms }
{}

/// The replies of parts are put in the order of arrival in one way.
pub fn replies_have_one_order()
    ensures { (parts : List ℕ) (lists : List (List ReplyBody)) (one other : List ReplyBody) → IsOneOrder parts lists one other }
{}

/// Whatever decides one message after another comes to the same on the rows for the messages as on the whole book, and these rows, written
/// over the book, are the book behind them.
pub fn rows_are_enough()
    ensures { (rows : Rows) (frames : List Frame) → AreEnough rows frames }
{}
