ghost use Rattle.std.specs.Prelude.{◌≡◌};

use capability::Uid;
use locator::*;

/// Something that happens at two nodes, or a question with its answer.
#[derive(Clone, Copy)]
enum Step {
    /// A node goes up or down.
    Up(u8, bool),
    /// The link between two stations is joined or cut.
    Link(u8, u8, bool),
    /// Whether a node is up.
    IsUp(u8, bool),
    /// Whether a station reaches another.
    Reach(u8, u8, bool),
}

const STEPS: &[Step] = &[
    Step::IsUp(0, true),
    Step::IsUp(2, false),
    // down
    Step::Reach(0, 2, false),
    Step::Up(1, true),
    Step::Up(2, true),
    Step::Reach(0, 2, true),
    Step::Link(0, 2, false),
    // cut, and cut the other way
    Step::Reach(0, 2, false),
    Step::Reach(2, 0, false),
    // another link
    Step::Reach(0, 1, true),
    // itself
    Step::Reach(2, 2, true),
    // nothing reaches the shell, not even itself
    Step::Reach(1, 0, false),
    Step::Reach(0, 0, false),
    // no station
    Step::Reach(0, 9, false),
    Step::Link(2, 0, true),
    // joined
    Step::Reach(0, 2, true),
    Step::Up(2, false),
    // down again
    Step::Reach(2, 2, false),
];

/// Makes a step, and tells whether a question has its answer. A step that may not be made is not so.
fn is_so(places: &mut Places, step: Step) -> bool
    requires { places.old.nodes ≡ 2 }
    ensures { places.new.nodes ≡ 2 }
{
    match step {
        Step::Up(node, up) if 1 <= node && node <= 2 => places.set_up(node, up),
        Step::Link(a, b, joined) if a <= 8 && b <= 8 => places.set_link(a, b, joined),
        Step::IsUp(node, wanted) if node <= 8 => return places.is_up(node) == wanted,
        Step::Reach(from, to, wanted) if from <= 8 => return places.reach(from, to) == wanted,
        _ => return false,
    }
    true
}

#[test]
fn reach_follows_nodes_and_links(rt: HostRuntime) {
    let mut places = Places::new(2);
    for (place, &step) in STEPS.iter().enumerate() {
        assert!(rt; is_so(&mut places, step), "step {place}");
    }
}

#[test]
fn an_eject_lives_where_it_was_born(rt: HostRuntime) {
    let uid = Uid {
        node: 3,
        epoch: 1,
        serial: 7,
    };
    assert_eq!(rt; home(uid), 3);
}
