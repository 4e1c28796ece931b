//! Laws of alike books, over the definitions alone: each is a function that does nothing, whose contract is the law.
ghost use Rattle.std.specs.Prelude.{ℕ, length};
ghost use Rattle.lab_book.specs.Book.{BookValue, waiting_in, leased_in, IsTiled};
ghost use Rattle.lab_book.specs.Posted.{posted_visits, posted_steps};
ghost use Rattle.lab_book_laws.specs.AlikeBooks.{held_tiles, levels_told, BooksAgree, TilingsAgree};
ghost use Rattle.lab_book_laws.specs.AlikeCalls.{AreAlikeAt, AreAlikeOutcomes, IfAlikeHasPlace, HasOnePlace, IsFoundByCut, LeaseAnyAlike, EachSameCall};
ghost use Rattle.lab_book_laws.specs.Searched.{searched, IsSearched, MakesAlike, NoneWaits, NoneLeased, NoneHeld, IfFinishes, EachPooled};

/// Of alike books the same visits, steps and levels were posted, however their closed tiles are cut; and as many of their tiles
/// wait, are leased and are held.
pub fn alike_books_tell_the_same()
    ensures visits { (a b : BookValue) → TilingsAgree a b (λ x. posted_visits x.tiles) }
    ensures steps { (a b : BookValue) → TilingsAgree a b (λ x. posted_steps x.tiles) }
    ensures levels { (a b : BookValue) → TilingsAgree a b levels_told }
    ensures waiting { (a b : BookValue) → BooksAgree a b (λ x. waiting_in x.tiles) }
    ensures leased { (a b : BookValue) → BooksAgree a b (λ x. leased_in x.tiles) }
    ensures held { (a b : BookValue) → BooksAgree a b (λ x. length (held_tiles x.tiles)) }
{}

/// Each open tile of a book has its place in an alike one, and that alone; in tilings it is the open tile that begins at the same cut.
// A tile's id and place differ between alike books, so a command names it by the cut where it begins.
pub fn open_tiles_correspond()
    ensures each { (a b : BookValue) (i : ℕ) → IfAlikeHasPlace a i b }
    ensures one { (a b : BookValue) (i j k : ℕ) → HasOnePlace a i b j k }
    ensures cut { (a b : BookValue) (i j : ℕ) → IsFoundByCut a i b j }
{}

/// The same call of alike books, at the places of the same open tile, is answered the same but for ids and leases, and leaves alike
/// books, with the same tile at the two places; and so is a lease of any tile.
pub fn alike_books_answer_the_same()
    ensures alike { EachSameCall (λ a b i j o q. AreAlikeOutcomes a b o q) }
    ensures tile { EachSameCall (λ a b i j o q. AreAlikeAt o.tiles i q.tiles j) }
    ensures any { (a b : BookValue) (v w : ℕ) → LeaseAnyAlike a v b w }
{}

/// Whatever a pool makes of a book is alike to the searched book, and to that of an alike book, where no tile is leased; the searched
/// book is a tiling. A book is what a pool makes of another where all its tiles are closed, and none was held; and where its later
/// calls are a pool's, and no tile of it waits or is leased any more.
pub fn pooled_books_are_alike()
    ensures alike { (a b c : BookValue) → MakesAlike a b c }
    ensures tiling { (b : BookValue) → IsTiled b → IsTiled (searched b) }
    ensures finished { (a b : BookValue) → IfFinishes a b (NoneHeld a → IsSearched a b) }
    ensures promised { EachPooled (λ a b. NoneWaits b → NoneLeased b → IsSearched a b) }
{}
