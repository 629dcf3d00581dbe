// Lanes, with their tags and clocks, and the instructions so far.
ghost use Rattle.std.specs.Prelude.{◌≡◌, ◌⊎◌, ◌==◌, ◌≤◌, ◌<◌, ◌+◌, ◌-◌, ◌*◌, ◌^◌, length, All, set, OnOk, IfSome, IfOk, None, true, false};
ghost use Rattle.lane_core.specs.Instrs.{IsOnLanes, lane_of};
ghost use Rattle.lane_core.specs.Places.{IsPlaceWithin};
ghost use Rattle.row_placer.specs.declared.roles.Role.TheVariants.{Free, Kept, First, Second};
ghost use Rattle.row_placer.specs.Told.{role_code, Told, MadeTold, MadeAt, PutsTags, Exchanged, count, free_tag, tag, tag_on, taken_tag, upper_operand, lower_operand, gate_instr};
ghost use Rattle.row_placer.specs.Uses.{uses_left};
ghost use Rattle.row_placer.specs.Ready.{ReadyForGate, ReadyForPort, HoldAllPorts, AreSettled, IsUsable, IsRunnable, ArePortsKnown, value_count};
ghost use Rattle.row_placer.specs.Placed.{AreOuts};
ghost use Rattle.row_placer.specs.Settling.{AreOnLanes, came_from};
ghost use Rattle.row_placer.specs.declared.job.CellKind.TheVariants.{AndNot};
ghost use Rattle.channel_router.specs.Routes.{swapped, brought, distance};

use crate::{CellKind, Job, NumberedCell, PlaceError, Role, Tag, Travel, settles, settling_swaps};
use lane_core::{Instr, NetPlace};
use std::alloc::Global;

// If two lanes share the way, each passes one of so many lanes between them.
const SHARE: u32 = 64;

/// Lanes with the instructions so far. After these every tag tells the bit on its lane, and every
/// place of a gate has the gate's value.
#[derive(Drop)]
pub struct Lanes {
    pub job: Job,
    pub tags: Vec<Tag>,
    pub clocks: Vec<u64>,
    pub instrs: Vec<Instr>,
    pub made: Vec<NetPlace>,
    pub ghost few: { length tags.items < 2 ^ 32 },
    pub ghost long: { length job.start ≡ length tags.items },
    pub ghost clocked: { length clocks.items ≡ length tags.items },
    pub ghost on_lanes: { All (IsOnLanes (length tags.items)) instrs.items },
    pub ghost told: { Told job tags.items instrs.items },
    pub ghost places: { All (IsPlaceWithin (length tags.items) (length instrs.items)) made.items },
    pub ghost made_told: { MadeTold job instrs.items made.items },
    pub ghost made_at: { MadeAt job instrs.items made.items },
}

impl Lanes {
    ghost use Rattle.row_placer.specs.Steps.{PlacesNothing, KeepsGates, DoesInstr, MeetsAt, AddsInstrs, AddsAtMost, MovesTags, CopiesTag, IsNextGate, EndsWithNextGate, MakesGate, PlacesJob, next_value};

    /// Returns the lanes as they are at the start.
    pub fn new(alloc: Global, job: Job) -> Result<Lanes, PlaceError>
        requires few { length job.start < 2 ^ 32 }
        ensures begun { IfOk result PlacesNothing }
        ensures job { IfOk result (λ r. r.job ≡ job) }
    {
        let Ok(tags) = job.start.as_slice().to_vec(alloc) else {
            drop(job);
            return Err(PlaceError::NoMemory);
        };
        let Ok(clocks) = vec![in alloc; 0; tags.len()] else {
            drop(job);
            return Err(PlaceError::NoMemory);
        };
        Ok(Lanes {
            job,
            tags,
            clocks,
            instrs: Vec::new(alloc),
            made: Vec::new(alloc),
        })
    }

    /// Places all that the job asks for.
    pub fn run(alloc: Global, job: Job, loops: u32, left: &mut [u32]) -> Result<Lanes, PlaceError>
        requires { IsRunnable job loops left.old }
        ensures { IfOk result (PlacesJob job loops) }
    {
        let mut lanes = Lanes::new(alloc, job)?;
        match lanes.place_all(alloc, loops, left) {
            Ok(()) => Ok(lanes),
            Err(error) => {
                drop(lanes);
                Err(error)
            }
        }
    }

    // Places all that the job asks for on the lanes as they are at the start.
    fn place_all(&mut self, alloc: Global, loops: u32, left: &mut [u32]) -> Result<(), PlaceError>
        requires start { PlacesNothing self.old }
        requires ready { IsRunnable self.old.job loops left.old }
        ensures { OnOk result (PlacesJob self.old.job loops self.new) }
    {
        self.place_gates(left)?;
        self.place_ports(loops, left)?;
        self.settle_loops(alloc, loops)?;
        Ok(())
    }

    /// Returns the instructions.
    pub fn into_instrs(self) -> Vec<Instr>
        ensures { result.items ≡ self.instrs.items }
    {
        self.instrs
    }

    /// Does an instruction, after which its two lanes have these tags.
    fn step(&mut self, instr: Instr, upper: Tag, lower: Tag) -> Result<(), PlaceError>
        requires within { lane_of instr + 1 < length self.old.tags.items }
        requires answers { PutsTags self.old.job self.old.tags.items instr upper lower }
        ensures does { OnOk result (DoesInstr self.old self.new instr upper lower) }
        ensures kept { KeepsGates self.old self.new }
    {
        self.instrs.push(instr)?;
        let at = instr.lane() as usize;
        let time = self.clocks[at].max(self.clocks[at + 1]).saturating_add(1);
        self.clocks[at] = time;
        self.clocks[at + 1] = time;
        self.tags[at] = upper;
        self.tags[at + 1] = lower;
        Ok(())
    }

    /// Exchanges two neighbouring lanes.
    fn swap(&mut self, lane: u32) -> Result<(), PlaceError>
        requires { lane + 1 < length self.old.tags.items }
        ensures moved { OnOk result (MovesTags self.old self.new (swapped lane) 1) }
        ensures kept { KeepsGates self.old self.new }
    {
        let upper = self.tags[lane as usize + 1];
        let lower = self.tags[lane as usize];
        self.step(Instr::Swap(lane), upper, lower)
    }

    /// Copies a lane to the next one.
    fn fork(&mut self, lane: u32) -> Result<(), PlaceError>
        requires { lane + 1 < length self.old.tags.items }
        ensures copied { OnOk result (
            CopiesTag self.old self.new lane lane (tag_on self.old.tags.items (lane + 1))
            ) }
        ensures adds { OnOk result (AddsInstrs self.old self.new 1) }
        ensures kept { KeepsGates self.old self.new }
    {
        let both = self.tags[lane as usize];
        self.step(Instr::Fork(lane), both, both)
    }

    /// Gives the value on a lane another role.
    fn mark(&mut self, lane: u32, role: Role)
        requires within { lane < length self.old.tags.items }
        requires some { 0 < role_code (tag_on self.old.tags.items lane).role }
        ensures tags { self.new.tags.items
            ≡ set self.old.tags.items lane (
            tag (tag_on self.old.tags.items lane).value role
            ) }
        ensures adds { AddsInstrs self.old self.new 0 }
        ensures kept { KeepsGates self.old self.new }
    {
        let value = self.tags[lane as usize].value;
        self.tags[lane as usize] = Tag { value, role };
    }

    /// Frees a lane.
    fn free(&mut self, lane: u32)
        requires { lane < length self.old.tags.items }
        ensures tags { self.new.tags.items ≡ set self.old.tags.items lane free_tag }
        ensures adds { AddsInstrs self.old self.new 0 }
        ensures kept { KeepsGates self.old self.new }
    {
        self.tags[lane as usize] = Tag {
            value: 0,
            role: Role::Free,
        };
    }

    /// Frees the lane of a value if it has no use left.
    fn end(&mut self, value: u32, uses: u32)
        requires { 1 ≤ count value Kept self.old.tags.items }
        ensures exchanged { Exchanged
            self.old.tags.items self.new.tags.items (taken_tag value (uses == 0))
            free_tag }
        ensures adds { AddsInstrs self.old self.new 0 }
        ensures kept { KeepsGates self.old self.new }
    {
        if uses > 0 {
            return;
        }
        let lane = self.find(value, Role::Kept);
        self.free(lane);
    }

    /// Returns the first lane with this value in this role, if there is one.
    fn first_lane(&self, value: u32, role: Role) -> Option<u32>
        ensures within { IfSome result (λ r. r < length self.now.tags.items) }
        ensures here { IfSome result (λ r. tag_on self.now.tags.items r ≡ tag value role) }
        ensures none { result ≡ None → count value role self.now.tags.items ≡ 0 }
    {
        let mut lane = 0;
        while (lane as usize) < self.tags.len() {
            if self.tags[lane as usize].is(value, role) {
                return Some(lane);
            }
            lane += 1;
        }
        None
    }

    /// Returns the first lane with this value in this role. A call needs that there is one.
    fn find(&self, value: u32, role: Role) -> u32
        requires { 1 ≤ count value role self.now.tags.items }
        ensures within { result < length self.now.tags.items }
        ensures here { tag_on self.now.tags.items result ≡ tag value role }
    {
        match self.first_lane(value, role) {
            Some(lane) => lane,
            None => unreachable!(),
        }
    }

    /// Brings a lane to another one; the others keep their order.
    fn bring(&mut self, from: u32, to: u32) -> Result<(), PlaceError>
        requires from { from < length self.old.tags.items }
        requires to { to < length self.old.tags.items }
        ensures moved { OnOk result (
            MovesTags self.old self.new (brought from to) (distance from to)
            ) }
        ensures kept { KeepsGates self.old self.new }
    {
        if from < to {
            self.bring_down(from, to)
        } else {
            self.bring_up(from, to)
        }
    }

    // Brings a lane to one below it.
    fn bring_down(&mut self, from: u32, to: u32) -> Result<(), PlaceError>
        requires order { from ≤ to }
        requires to { to < length self.old.tags.items }
        ensures moved { OnOk result (
            MovesTags self.old self.new (brought from to) (distance from to)
            ) }
        ensures kept { KeepsGates self.old self.new }
    {
        let mut at = from;
        while at < to {
            self.swap(at)?;
            at += 1;
        }
        Ok(())
    }

    // Brings a lane to one above it.
    fn bring_up(&mut self, from: u32, to: u32) -> Result<(), PlaceError>
        requires order { to ≤ from }
        requires from { from < length self.old.tags.items }
        ensures moved { OnOk result (
            MovesTags self.old self.new (brought from to) (distance from to)
            ) }
        ensures kept { KeepsGates self.old self.new }
    {
        let mut at = from;
        while at > to {
            at -= 1;
            self.swap(at)?;
        }
        Ok(())
    }

    /// Returns where two lanes meet first by their clocks, as the upper of the two lanes to which
    /// they come, and when.
    fn meeting(&self, upper: u32, lower: u32) -> (u32, u64)
        requires order { upper < lower }
        requires within { lower < length self.now.tags.items }
        ensures low { upper ≤ result.0 }
        ensures high { result.0 < lower }
    {
        let (mut i, mut j) = (upper, lower);
        let mut time_i = self.clocks[i as usize];
        let mut time_j = self.clocks[j as usize];
        while i + 1 < j {
            let next_i = time_i.max(self.clocks[i as usize + 1]);
            let next_j = time_j.max(self.clocks[j as usize - 1]);
            if next_i <= next_j {
                time_i = next_i.saturating_add(1);
                i += 1;
            } else {
                time_j = next_j.saturating_add(1);
                j -= 1;
            }
        }
        (i, time_i.max(time_j).saturating_add(1))
    }

    /// Returns where two lanes come side by side by the job's way of travelling, as the upper of the
    /// two lanes to which they come.
    fn joining(&self, upper: u32, lower: u32) -> u32
        requires order { upper < lower }
        requires within { lower < length self.now.tags.items }
        ensures low { upper ≤ result }
        ensures high { result < lower }
    {
        let first = self.meeting(upper, lower).0;
        let share = share_of(self.job.travel, lower - upper - 1);
        first.max(upper + share).min(lower - 1 - share)
    }

    /// Brings two lanes side by side by the job's way of travelling, and returns the upper one of the
    /// two lanes to which they come.
    fn meet(&mut self, upper: u32, lower: u32) -> Result<u32, PlaceError>
        requires order { upper < lower }
        requires within { lower < length self.old.tags.items }
        ensures met { IfOk result (MeetsAt self.old self.new upper lower) }
        ensures kept { KeepsGates self.old self.new }
    {
        let at = self.joining(upper, lower);
        self.bring(upper, at)?;
        self.bring(lower, at + 1)?;
        Ok(at)
    }

    /// Returns the nearest free lane below.
    fn free_below(&self, lane: u32) -> Option<u32>
        ensures within { IfSome result (λ r. r < length self.now.tags.items) }
        ensures here { IfSome result (λ r. tag_on self.now.tags.items r ≡ free_tag) }
    {
        let mut at = lane;
        while at as usize + 1 < self.tags.len() {
            at += 1;
            if self.tags[at as usize].is(0, Role::Free) {
                return Some(at);
            }
        }
        None
    }

    /// Returns the nearest free lane above.
    fn free_above(&self, lane: u32) -> Option<u32>
        requires { lane < length self.now.tags.items }
        ensures within { IfSome result (λ r. r < length self.now.tags.items) }
        ensures here { IfSome result (λ r. tag_on self.now.tags.items r ≡ free_tag) }
    {
        let mut at = lane;
        while at > 0 {
            at -= 1;
            if self.tags[at as usize].is(0, Role::Free) {
                return Some(at);
            }
        }
        None
    }

    // When a lane can meet another one.
    fn time_to(&self, lane: u32, other: u32) -> u64
        requires lane { lane < length self.now.tags.items }
        requires other { other < length self.now.tags.items }
    {
        if lane < other {
            self.meeting(lane, other).1
        } else if other < lane {
            self.meeting(other, lane).1.saturating_add(1)
        } else {
            0
        }
    }

    /// Returns the free lane that the lane can meet first.
    fn choose_free(&self, lane: u32) -> u32
        requires within { lane < length self.now.tags.items }
        requires free { 1 ≤ count 0 Free self.now.tags.items }
        ensures within { result < length self.now.tags.items }
        ensures here { tag_on self.now.tags.items result ≡ free_tag }
    {
        match (self.free_below(lane), self.free_above(lane)) {
            (Some(below), Some(above)) => {
                if self.time_to(lane, below) <= self.time_to(lane, above) {
                    below
                } else {
                    above
                }
            }
            (Some(below), None) => below,
            (None, Some(above)) => above,
            (None, None) => self.find(0, Role::Free),
        }
    }

    /// Makes a second copy of what stands on a lane, and returns the upper one of the two lanes
    /// that then have it.
    fn copy(&mut self, lane: u32) -> Result<u32, PlaceError>
        requires within { lane < length self.old.tags.items }
        requires some { 0 < role_code (tag_on self.old.tags.items lane).role }
        requires free { 1 ≤ count 0 Free self.old.tags.items }
        ensures within { IfOk result (λ r. r + 1 < length self.old.tags.items) }
        ensures copied { IfOk result (λ r. CopiesTag self.old self.new lane r free_tag) }
        ensures adds { OnOk result (AddsAtMost self.old self.new (length self.old.tags.items)) }
        ensures kept { KeepsGates self.old self.new }
    {
        let free = self.choose_free(lane);
        if lane < free {
            let at = self.meet(lane, free)?;
            self.fork(at)?;
            Ok(at)
        } else {
            let at = self.meet(free, lane)?;
            self.swap(at)?;
            self.fork(at)?;
            Ok(at)
        }
    }

    /// Gives a role to a kept value: on its lane at the last use, and else on a copy: the one on
    /// the partner's side, and the upper one if it has no partner.
    fn fetch(
        &mut self,
        value: u32,
        role: Role,
        last: bool,
        partner: Option<u32>,
    ) -> Result<(), PlaceError>
        requires has { 1 ≤ count value Kept self.old.tags.items }
        requires free { last ≡ false → 1 ≤ count 0 Free self.old.tags.items }
        ensures exchanged { OnOk result (
            Exchanged self.old.tags.items self.new.tags.items (taken_tag value last) (
            tag value role
            )
            ) }
        ensures adds { OnOk result (AddsAtMost self.old self.new (length self.old.tags.items)) }
        ensures kept { KeepsGates self.old self.new }
    {
        let lane = self.find(value, Role::Kept);
        if last {
            self.mark(lane, role);
            Ok(())
        } else {
            let at = self.copy(lane)?;
            self.mark(beside(partner, at), role);
            Ok(())
        }
    }

    /// Names the lane of the last instruction as the place of the next gate.
    fn note(&mut self, lane: u32) -> Result<(), PlaceError>
        requires lane { lane < length self.old.tags.items }
        requires some { 0 < length self.old.instrs.items }
        requires here { tag_on self.old.tags.items lane ≡ tag (next_value self.old) Kept }
        requires last { EndsWithNextGate self.old lane }
        ensures tags { self.new.tags.items ≡ self.old.tags.items }
        ensures instrs { self.new.instrs.items ≡ self.old.instrs.items }
        ensures made { OnOk result (length self.new.made.items ≡ length self.old.made.items + 1) }
        ensures job { self.new.job ≡ self.old.job }
    {
        let after = self.instrs.len() as u64 - 1;
        self.made.push(NetPlace {
            lane,
            after: Some(after),
        })?;
        Ok(())
    }

    /// Makes the next gate from two neighbouring lanes. `turned` says that the second operand is on
    /// the upper one.
    fn make(&mut self, lane: u32, gate: NumberedCell, turned: bool) -> Result<(), PlaceError>
        requires lane { lane + 1 < length self.old.tags.items }
        requires next { IsNextGate self.old gate }
        requires upper { tag_on self.old.tags.items lane ≡ upper_operand gate turned }
        requires lower { tag_on self.old.tags.items (lane + 1) ≡ lower_operand gate turned }
        requires order { gate.kind ≡ AndNot → turned ≡ false }
        ensures made { OnOk result (MakesGate self.old self.new gate) }
        ensures adds { OnOk result (AddsInstrs self.old self.new 1) }
        ensures job { self.new.job ≡ self.old.job }
    {
        let value = self.job.base + self.made.len() as u32;
        let instr = instr_of(gate.kind, lane);
        self.step(
            instr,
            Tag {
                value,
                role: Role::Kept,
            },
            Tag {
                value: 0,
                role: Role::Free,
            },
        )?;
        self.note(lane)
    }

    /// Makes the next gate from its operands.
    fn gate(&mut self, gate: NumberedCell) -> Result<(), PlaceError>
        requires next { IsNextGate self.old gate }
        requires first { 1 ≤ count gate.first First self.old.tags.items }
        requires second { 1 ≤ count gate.second Second self.old.tags.items }
        ensures made { OnOk result (MakesGate self.old self.new gate) }
        ensures adds { OnOk result (AddsAtMost self.old self.new (length self.old.tags.items)) }
        ensures job { self.new.job ≡ self.old.job }
    {
        let x = self.find(gate.first, Role::First);
        let y = self.find(gate.second, Role::Second);
        if x < y {
            let at = self.meet(x, y)?;
            self.make(at, gate, false)
        } else {
            let at = self.meet(y, x)?;
            if is_and_not(gate.kind) {
                self.swap(at)?;
                self.make(at, gate, false)
            } else {
                self.make(at, gate, true)
            }
        }
    }

    /// Uses a kept value once: it gets a role, or a copy of it does if there are later uses.
    fn use_value(
        &mut self,
        value: u32,
        role: Role,
        partner: Option<u32>,
        left: &mut [u32],
    ) -> Result<(), PlaceError>
        requires role { 2 ≤ role_code role }
        requires usable { IsUsable value self.old.tags.items left.old }
        ensures exchanged { OnOk result (
            Exchanged
            self.old.tags.items self.new.tags.items
            (taken_tag value (uses_left left.old value == 1))
            (tag value role)
            ) }
        ensures left { left.new ≡ set left.old value (uses_left left.old value - 1) }
        ensures adds { OnOk result (AddsAtMost self.old self.new (length self.old.tags.items)) }
        ensures kept { KeepsGates self.old self.new }
    {
        left[value as usize] -= 1;
        let last = left[value as usize] == 0;
        self.fetch(value, role, last, partner)
    }

    /// Places the next gate.
    fn next(&mut self, left: &mut [u32]) -> Result<(), PlaceError>
        requires within { length self.old.made.items < length self.old.job.gates }
        requires ready { ReadyForGate
            self.old.job (length self.old.made.items) self.old.tags.items left.old }
        requires wide { value_count self.old.job ≤ length left.old }
        ensures ready { OnOk result (
            ReadyForGate
            self.old.job (length self.old.made.items + 1) self.new.tags.items left.new
            ) }
        ensures adds { OnOk result (
            AddsAtMost self.old self.new (3 * length self.old.tags.items)
            ) }
        ensures made { OnOk result (length self.new.made.items ≡ length self.old.made.items + 1) }
        ensures job { self.new.job ≡ self.old.job }
        ensures left { OnOk result (length left.new ≡ length left.old) }
    {
        let made = self.made.len();
        let gate = *self.job.gates.get(made);
        let partner = self.first_lane(gate.second, Role::Kept);
        self.use_value(gate.first, Role::First, partner, left)?;
        let partner = self.first_lane(gate.first, Role::First);
        self.use_value(gate.second, Role::Second, partner, left)?;
        let value = self.job.base + self.made.len() as u32;
        self.gate(gate)?;
        self.end(value, left[value as usize]);
        Ok(())
    }

    /// Places all gates.
    fn place_gates(&mut self, left: &mut [u32]) -> Result<(), PlaceError>
        requires none { length self.old.made.items ≡ 0 }
        requires ready { ReadyForGate self.old.job 0 self.old.tags.items left.old }
        requires wide { value_count self.old.job ≤ length left.old }
        ensures ready { OnOk result (ReadyForPort self.old.job 0 self.new.tags.items left.new) }
        ensures adds { OnOk result (
            AddsAtMost self.old self.new
            (length self.old.job.gates * (3 * length self.old.tags.items))
            ) }
        ensures made { OnOk result (length self.new.made.items ≡ length self.old.job.gates) }
        ensures job { self.new.job ≡ self.old.job }
        ensures left { OnOk result (length left.new ≡ length left.old) }
    {
        while self.made.len() < self.job.gates.len() {
            self.next(left)?;
        }
        Ok(())
    }

    // The lowest lane, if there is one.
    fn lowest(&self) -> Option<u32> {
        (self.tags.len() as u32).checked_sub(1)
    }

    /// Gives each port a lane of its own: of two copies a loop's is the lower one, since it is
    /// brought to the lowest lanes afterwards.
    fn place_ports(&mut self, loops: u32, left: &mut [u32]) -> Result<(), PlaceError>
        requires ready { ReadyForPort self.old.job 0 self.old.tags.items left.old }
        requires known { ArePortsKnown self.old.job }
        ensures held { OnOk result (HoldAllPorts self.old.job self.new.tags.items) }
        ensures adds { OnOk result (
            AddsAtMost self.old self.new
            (length self.old.job.ports * length self.old.tags.items)
            ) }
        ensures kept { KeepsGates self.old self.new }
    {
        let mut port = 0;
        while (port as usize) < self.job.ports.len() {
            let value = *self.job.ports.get(port as usize);
            let partner = if port < loops { self.lowest() } else { None };
            self.use_value(value, Role::Port(port), partner, left)?;
            port += 1;
        }
        Ok(())
    }

    // Brings the first ports to the lowest lanes one after another.
    fn bring_loops(&mut self, loops: u32) -> Result<(), PlaceError>
        requires loops { loops ≤ length self.old.job.ports }
        requires lanes { loops ≤ length self.old.tags.items }
        requires held { HoldAllPorts self.old.job self.old.tags.items }
        ensures held { OnOk result (HoldAllPorts self.old.job self.new.tags.items) }
        ensures settled { OnOk result (AreSettled self.old.job loops self.new.tags.items) }
        ensures adds { OnOk result (
            AddsAtMost self.old self.new (loops * length self.old.tags.items)
            ) }
        ensures kept { KeepsGates self.old self.new }
    {
        let mut port = 0;
        while port < loops {
            let value = *self.job.ports.get(port as usize);
            let lane = self.find(value, Role::Port(port));
            let to = self.tags.len() as u32 - 1 - port;
            self.bring(lane, to)?;
            port += 1;
        }
        Ok(())
    }

    // Exchanges neighbours, one pair after another.
    fn swap_all(&mut self, swaps: &[u32]) -> Result<(), PlaceError>
        requires { AreOnLanes (length self.old.tags.items) swaps.now }
        ensures moved { OnOk result (
            MovesTags self.old self.new (came_from swaps.now) (length swaps.now)
            ) }
        ensures kept { KeepsGates self.old self.new }
    {
        let mut next = 0;
        while next < swaps.len() {
            let lane = swaps[next];
            self.swap(lane)?;
            next += 1;
        }
        Ok(())
    }

    /// Brings the first ports to the lowest lanes, the first one to the lowest.
    fn settle_loops(&mut self, alloc: Global, loops: u32) -> Result<(), PlaceError>
        requires loops { loops ≤ length self.old.job.ports }
        requires lanes { loops ≤ length self.old.tags.items }
        requires held { HoldAllPorts self.old.job self.old.tags.items }
        ensures held { OnOk result (HoldAllPorts self.old.job self.new.tags.items) }
        ensures settled { OnOk result (AreSettled self.old.job loops self.new.tags.items) }
        ensures adds { OnOk result (
            AddsAtMost self.old self.new (loops * length self.old.tags.items)
            ) }
        ensures kept { KeepsGates self.old self.new }
    {
        let swaps = settling_swaps(alloc, &self.tags, &self.clocks, loops)?;
        if settles(alloc, &self.job, loops, &self.tags, &swaps)? {
            self.swap_all(&swaps)
        } else {
            self.bring_loops(loops)
        }
    }

    /// Returns the lanes of the ports that are no loops.
    pub fn find_outs(&self, alloc: Global, loops: u32) -> Result<Vec<u32>, PlaceError>
        requires loops { loops ≤ length self.now.job.ports }
        requires held { HoldAllPorts self.now.job self.now.tags.items }
        ensures long { IfOk result (λ v. length v.items + loops ≡ length self.now.job.ports) }
        ensures outs { IfOk result (λ v.
            AreOuts self.now.job loops self.now.tags.items v.items
            ) }
    {
        let mut outs = Vec::new(alloc);
        let mut port = loops;
        while (port as usize) < self.job.ports.len() {
            let value = *self.job.ports.get(port as usize);
            let lane = self.find(value, Role::Port(port));
            outs.push(lane)?;
            port += 1;
        }
        Ok(outs)
    }
}

// How many of the lanes between two lanes each of them passes at least.
fn share_of(travel: Travel, between: u32) -> u32
    ensures { 2 * result ≤ between }
{
    match travel {
        Travel::Soonest => 0,
        Travel::Shared => between / SHARE,
    }
}

// A lane or the next one: the one on the partner's side, and the upper one if there is no partner.
fn beside(partner: Option<u32>, lane: u32) -> u32
    requires { lane + 1 < 2 ^ 32 }
    ensures { (result ≡ lane) ⊎ (result ≡ lane + 1) }
{
    match partner {
        Some(partner) if partner > lane => lane + 1,
        _ => lane,
    }
}

fn is_and_not(kind: CellKind) -> bool
    ensures yes { kind ≡ AndNot → result ≡ true }
{
    match kind {
        CellKind::AndNot => true,
        _ => false,
    }
}

fn instr_of(kind: CellKind, lane: u32) -> Instr
    ensures value { result ≡ gate_instr kind lane }
    ensures lane { lane_of result ≡ lane }
{
    match kind {
        CellKind::Or => Instr::Or(lane),
        CellKind::Xor => Instr::Xor(lane),
        CellKind::AndNot => Instr::AndNot(lane),
    }
}
