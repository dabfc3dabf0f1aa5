//! What others keep of a marked graph between a marker's calls. Each law is the contract of a function that does nothing.
ghost use Rattle.std.specs.Prelude.{◌≡◌, ◌≢◌, List};
ghost use Rattle.az_base.specs.declared.action.Mode.{Mode};
ghost use Rattle.az_base.specs.declared.block_id.BlockId.{BlockId};
ghost use Rattle.quantum_space.specs.declared.shade.Shade.TheVariants.{White};
ghost use Rattle.quantum_space.specs.Shapes.{Shape, Shades};
ghost use Rattle.gen_marker.specs.Marking.{Begun, Greys, Shut};
ghost use Rattle.gen_marker.specs.Tight.{AtBegin, Changed, Covered, NoneNewer, Tight};

/// A begin leaves a tight graph, where each old block with an edge to a young one is remembered.
pub fn begun_graphs_are_tight()
    ensures { (m : Mode) (s : Shape) (old new : Shades) → NoneNewer s → Covered m s → Begun m s old new → Tight m s new }
{}

/// A change whose new edges lead to enlivened blocks alone keeps a graph tight.
pub fn changes_keep_it_tight()
    ensures { (m : Mode) (s t : Shape) (live : List BlockId) (old new : Shades) → Changed s t live → Greys (AtBegin s live) old new → Tight m s old → Tight m t new }
{}

/// A slice or a finish, which makes shades darker and keeps the tricolour fact, keeps a graph tight.
pub fn slices_keep_it_tight()
    ensures { (m : Mode) (s : Shape) (old new : Shades) → ((b : BlockId) → old b ≢ White → new b ≢ White) → Shut m s new → Tight m s old → Tight m s new }
{}

/// In a tight graph no black block has an edge to a white one.
pub fn tight_graphs_are_shut()
    ensures { (m : Mode) (s : Shape) (f : Shades) → Tight m s f → Shut m s f }
{}
