//! Laws of streams, each the contract of a function that does nothing.

ghost use Rattle.std.specs.Prelude.{◌≡◌, ◌+◌, ◌++◌, ◌^◌, ◌<◌, ◌≤◌, [], ◌∷◌, List, map, Option, ℕ, length};
ghost use Rattle.std.specs.List.{concat};
ghost use Rattle.wire_fields.specs.Numbers.{IsBytes};
ghost use Rattle.rpc_pdu.specs.Encoding.{spelling};
ghost use Rattle.rpc_calls.specs.declared.call.Call.{Call};
ghost use Rattle.rpc_calls.specs.declared.intake_fault.IntakeFault.{IntakeFault};
ghost use Rattle.rpc_calls.specs.declared.item.Item.{Item};
ghost use Rattle.rpc_calls.specs.declared.side.Side.{Side};
ghost use Rattle.rpc_calls.specs.declared.side.Side.TheVariants.{Client, Server};
ghost use Rattle.rpc_calls.specs.Assembly.{most_stub};
ghost use Rattle.rpc_calls.specs.Calls.{ArePartsOf, ItemsAt, LeftIs};
ghost use Rattle.rpc_calls.specs.Cutting.{replied, reply_pieces, request_pieces, requested};
ghost use Rattle.rpc_calls.specs.Intakes.{Holds, Kept, no_fault, stream_length};
ghost use Rattle.rpc_calls.specs.Streams.{Items, Reads};

/// Each stream of bytes has its list of items, and a fault where it has no further one for another reason than its end.
pub fn items_exist()
    ensures { (side : Side) (stream : List ℕ) → IsBytes stream → (given : List Item) × (fault : Option IntakeFault) × Items side stream given fault }
{}

/// A stream has one list of items and at most one fault, however it is cut into pieces.
pub fn items_are_one()
    ensures { (side : Side) (stream : List ℕ) (one other : List Item) (fault fault2 : Option IntakeFault)
        → Items side stream one fault → Items side stream other fault2 → (one ≡ other) × (fault ≡ fault2) }
{}

/// What an intake has given are the first of its stream's items.
pub fn given_are_first()
    ensures { (kept : Kept) (stream : List ℕ) (given all : List Item) (fault : Option IntakeFault)
        → Holds kept stream given → Items kept.side stream all fault → (more : List Item) × (all ≡ given ++ more) }
{}

/// A fault of a stream stands whatever comes behind it.
pub fn faults_stand()
    ensures { (side : Side) (stream more : List ℕ) (given : List Item) (fault : IntakeFault)
        → Items side stream given (Some fault) → Items side (stream ++ more) given (Some fault) }
{}

/// An intake knows how long its stream is.
pub fn length_is_known()
    ensures { (kept : Kept) (stream : List ℕ) (given : List Item) → Holds kept stream given → stream_length kept ≡ length stream }
{}

/// Calls are the lists of their fragments: the items of the frames that were read are those that stand
/// at their parts, and no other list of items stands there. The unfinished call is the one that the
/// fragments tell of.
pub fn calls_are_their_fragments()
    ensures told { (side : Side) (stream : List ℕ) (frames : List (List ℕ)) (given : List Item) (left : Option Call) (rest : List ℕ)
        → Reads side stream frames given left rest
        → (parts : List Item) × ArePartsOf frames parts × ItemsAt side [] parts given × LeftIs side parts left }
    ensures no_others { (side : Side) (stream : List ℕ) (frames : List (List ℕ)) (given : List Item) (left : Option Call) (rest : List ℕ)
        → Reads side stream frames given left rest
        → (parts other : List Item) → ArePartsOf frames parts → ItemsAt side [] parts other → other ≡ given }
{}

/// A reply that was cut is, on the client's side, one call with its stub.
pub fn replies_are_joined()
    ensures { (call_id context most : ℕ) (stub : List ℕ) → call_id < 256 ^ 4 → context < 256 ^ 2 → 8 ≤ most → most ≤ 5816 → length stub ≤ most_stub
        → Items Client (concat (map spelling (reply_pieces call_id context most stub))) (Item.Call (replied call_id context stub) ∷ []) no_fault }
{}

/// A request that was cut is, on the server's side, one call with its stub.
pub fn requests_are_joined()
    ensures { (call_id context opnum most : ℕ) (stub : List ℕ) → call_id < 256 ^ 4 → context < 256 ^ 2 → opnum < 256 ^ 2 → 8 ≤ most → most ≤ 5816 → length stub ≤ most_stub
        → Items Server (concat (map spelling (request_pieces call_id context opnum most stub))) (Item.Call (requested call_id context opnum stub) ∷ []) no_fault }
{}
