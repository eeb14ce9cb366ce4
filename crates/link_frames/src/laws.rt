//! Laws of links.

ghost use Rattle.std.specs.Prelude.{◌≡◌, ◌++◌, ℕ, List, length};
ghost use Rattle.issuer_rows.specs.declared.reply_body.ReplyBody.{ReplyBody};
ghost use Rattle.link_frames.specs.Incoming.{Incoming, frames_of, bodies_of, answers_of, requests_behind, merged, only_bodies};
ghost use Rattle.link_frames.specs.Link.{AreFrames, IsNoFrame};
ghost use Rattle.link_frames.specs.Replies.{reply_frames};

/// A link is read in one way: the bodies that it has up to a place where no frame begins are these and no others, and any that were read
/// before are their beginning.
pub fn a_link_is_read_in_one_way()
    ensures once { (bytes left rest : List ℕ) (bodies others : List (List ℕ)) → AreFrames bytes bodies left → IsNoFrame left
        → AreFrames bytes others rest → IsNoFrame rest → (bodies ≡ others) × (left ≡ rest) }
    ensures begins { (bytes left rest : List ℕ) (bodies others : List (List ℕ)) → AreFrames bytes bodies left → AreFrames bytes others rest → IsNoFrame rest
        → (more : List (List ℕ)) × (others ≡ bodies ++ more) × AreFrames left more rest }
{}

/// What `ReplyWriter` writes is in the order of the frames: each reply stands where its frame came. A link without network management is
/// given the replies to its bodies, and nothing else.
pub fn answers_are_in_order()
    ensures merged { (incoming : List Incoming) (replies : List ReplyBody) → length replies ≡ length (bodies_of incoming)
        → merged (requests_behind 0 incoming) replies ≡ answers_of incoming replies }
    ensures alone { (bodies : List (List ℕ)) (replies : List ReplyBody) → length replies ≡ length bodies
        → (frames_of (only_bodies bodies) ≡ bodies) × (bodies_of (only_bodies bodies) ≡ bodies)
        × (answers_of (only_bodies bodies) replies ≡ reply_frames replies) }
{}
