//! The changes of a window of which the instances change only in the middle.
ghost use Rattle.std.specs.Prelude.{◌≡◌, ◌++◌, List, ℕ};
ghost use Rattle.stream_base.specs.declared.func.Func.{Func};
ghost use Rattle.stream_base.specs.Laws.{RiseByStart};
ghost use Rattle.stream_base.specs.Model.Windows.{Instance};
ghost use Rattle.window_laws.specs.After.{complete_at, emissions_between, retractions_between};

/// Where the standing instances before and behind begin alike and end alike, the changes are those
/// of what lies between.
pub fn changes_lie_in_the_middle()
    ensures gone { (window : ℕ) (key : List ℕ) (func : Func) (front old new back : List Instance)
        → RiseByStart (front ++ (old ++ back)) → RiseByStart (front ++ (new ++ back))
        → retractions_between window key func (front ++ (old ++ back)) (front ++ (new ++ back))
        ≡ retractions_between window key func old new }
    ensures come { (window : ℕ) (key : List ℕ) (func : Func) (front old new back : List Instance)
        → RiseByStart (front ++ (old ++ back)) → RiseByStart (front ++ (new ++ back))
        → emissions_between window key func (front ++ (old ++ back)) (front ++ (new ++ back))
        ≡ emissions_between window key func old new }
{}

/// The same of a window's instances at a watermark: where they change only in the middle, so do the
/// changes of those that are complete.
pub fn changes_of_complete_instances_lie_in_the_middle()
    ensures gone { (window : ℕ) (key : List ℕ) (func : Func) (water : ℕ)
        (front old new back : List Instance)
        → RiseByStart (front ++ (old ++ back)) → RiseByStart (front ++ (new ++ back))
        → retractions_between window key func (complete_at water (front ++ (old ++ back)))
        (complete_at water (front ++ (new ++ back)))
        ≡ retractions_between window key func (complete_at water old) (complete_at water new) }
    ensures come { (window : ℕ) (key : List ℕ) (func : Func) (water : ℕ)
        (front old new back : List Instance)
        → RiseByStart (front ++ (old ++ back)) → RiseByStart (front ++ (new ++ back))
        → emissions_between window key func (complete_at water (front ++ (old ++ back)))
        (complete_at water (front ++ (new ++ back)))
        ≡ emissions_between window key func (complete_at water old) (complete_at water new) }
{}
