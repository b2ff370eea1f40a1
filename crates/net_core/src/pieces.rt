// Lists of pieces: a whole piece goes to the end.
ghost use Rattle.std.specs.Prelude.{◌≡◌, ◌<◌, ◌++◌, vec_len, vec_capacity};
ghost use Rattle.net_core.specs.Parts.{joined};

use chem_model::Items;

// A piece goes to the end, where there is room for one. It takes no memory.
pub(crate) fn add_piece<T: Drop>(pieces: &mut Vec<Items<T>>, piece: Items<T>)
    requires { vec_len pieces.old < vec_capacity pieces.old }
    ensures { joined pieces.new.items ≡ joined pieces.old.items ++ piece }
{
    if !piece.is_empty() {
        let _ = pieces.push(piece);
    }
}
