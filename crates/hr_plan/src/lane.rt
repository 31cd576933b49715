//! Which lane owns a name at a destination. (Our own.)
ghost use Rattle.std.specs.Prelude.{◌≡◌, ◌<◌, ℕ};
ghost use Rattle.hr_base.specs.declared.number.RegNo.{RegNo};
ghost use Rattle.hr_name.specs.Name.{RepoName};
ghost use Rattle.hr_plan.specs.Lane.{HasOneLane, lane_of};

use hr_base::RegNo;
use hr_name::Name;

/// The lane that owns a repository of a destination, from 0, among so many lanes: the sum of the
/// bytes of its name and of the destination's number, modulo their number.
pub fn lane_of(to: &Name, dst: RegNo, lanes: u8) -> u8
    requires { 0 < lanes }
    ensures value { result ≡ lane_of to.now dst lanes }
    ensures below { result < lanes }
{
    let mut sum = u32::from(dst.0);
    for byte in to.view() {
        sum += u32::from(*byte);
    }
    (sum % u32::from(lanes)) as u8
}

/// A law: each name at each destination has exactly one lane, which is below the number of lanes.
pub fn each_name_has_one_lane()
    ensures { (to : RepoName) (dst : RegNo) (lanes : ℕ) → 0 < lanes → HasOneLane to dst lanes }
{}
