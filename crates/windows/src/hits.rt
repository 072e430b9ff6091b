// Which windows lie under many points. Document 02, N12.
ghost use Rattle.geom.specs.Refusals.{answer_of};
ghost use Rattle.windows.specs.View.{group, Given, Hits};

use crate::Session;
use crate::inner::frames::frames;
use geom::refusal::Refusal;
use topmost::points;

impl Session {
    // For each point, x and y in turn, three numbers: the window that a press there would go to and the point in it, or
    // 16, 0, 0. Nothing is delivered; the rest of the list is untouched.
    pub fn hits(&self, points: &[u32], answers: &mut [u32]) -> Result<(), Refusal>
        requires { Given self.now }
        ensures { Hits (group self.now) points.now answers.old (answer_of result) answers.new }
    {
        if !points::all_small(points) {
            return Err(Refusal::TooLarge);
        }
        if !points::fit(points.len(), answers.len()) {
            return Err(Refusal::Points);
        }
        let areas = frames(self).areas;
        topmost::hits::hits(&areas, self.shared.in_order(), points, answers);
        Ok(())
    }
}
