// The actions of a group and the groups of an ACL, one by one.
#![tactic(auto)]

ghost use Rattle.rules.specs.Basics.{records};
ghost use Rattle.rules.specs.Acl.{actions_of, groups_of};
ghost use Rattle.acl_groups.specs.Parts.{action_read, group_read};
ghost use Rattle.std.specs.Iterator.{YieldsFirstBy, item_count};

use record_sizes::Record;

// What is left of the actions of a group: of the records that follow its first one.
#[derive(Clone, Copy)]
pub struct Actions<'a>(pub &'a [u8]);

impl<'a> Iterator for Actions<'a> {
    // An action's record, and the records that follow it.
    type Item = (&'a Record, &'a [u8]);

    ghost next_gives = { YieldsFirstBy (λ p. action_read p.0.now p.1.now) (λ s. actions_of (records s.0.now)) };

    ghost remaining = { item_count (λ s. actions_of (records s.0.now)) };

    fn next(&mut self) -> Option<(&'a Record, &'a [u8])> {
        let at = crate::next_action(self.0, 0);
        let (act, after) = self.0[at..].split_first_chunk()?;
        self.0 = after;
        Some((act, after))
    }
}

// What is left of the groups of an ACL.
#[derive(Clone, Copy)]
pub struct Groups<'a>(pub &'a [u8]);

impl<'a> Iterator for Groups<'a> {
    // A group's first record, and the records that follow it.
    type Item = (&'a Record, &'a [u8]);

    ghost next_gives = { YieldsFirstBy (λ p. group_read p.0.now p.1.now) (λ s. groups_of (records s.0.now)) };

    ghost remaining = { item_count (λ s. groups_of (records s.0.now)) };

    fn next(&mut self) -> Option<(&'a Record, &'a [u8])> {
        let at = crate::group_at(self.0, 0, 0);
        let (first, body) = self.0[at..].split_first_chunk()?;
        self.0 = body;
        Some((first, body))
    }
}
